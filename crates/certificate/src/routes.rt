// One route of a unit with the greatest number of steps, found by going back from where it stops.
ghost use Rattle.std.specs.Prelude.{◌<◌, ◌≤◌, max, reverse, IfOk, MatchOption, ℕ};
ghost use Rattle.rules.specs.Program.{Own};
ghost use Rattle.rules.specs.Route.{Way};
ghost use Rattle.measures.specs.Meaning.{BoundsHold};
ghost use Rattle.measures.specs.Models.{steps_after};
ghost use Rattle.walk.specs.UnitTexts.{program_of, id_of};
ghost use Rattle.walk.specs.Joins.{JoinOf};
ghost use Rattle.walk.specs.Walked.{OwnOrEnd, Whole, Walked};
ghost use Rattle.certificate.specs.Longest.{Tells, StepsPast, Leads, Stops, Precedes, Traced, Longest};

use measures::steps::Steps;
use rules::op::Mnemonic;
use std::alloc::{AllocError, Global};
use walk::measure::Measure;
use walk::table::walk;
use walk::unit_text::UnitText;
use walk::whole::total;

// A unit with the table of the walk that counts its steps.
#[derive(Drop)]
struct Search<'a> {
    unit: UnitText<'a>,
    steps: Steps<'a>,
    table: Vec<Option<u32>>,
    ghost walked: { ∥ Walked 0 (steps_after steps.bounds.now) max (program_of unit) (id_of unit) table.items ∥₁ },
}

// Whether a route may go on from an own line l to line m.
fn goes(unit: &UnitText<'_>, l: usize, m: usize) -> bool
    requires { Own (program_of unit.now) (id_of unit.now) l }
    ensures { Tells result (Way (program_of unit.now) l m) }
{
    let line = unit.line(l);
    (!line.is(Mnemonic::Ex) && unit.following(l) == m)
        || (line.is_jump() && usize::from(line.operand) == m)
}

impl Search<'_> {
    // The steps after line l on a longest route to it; none where no route comes there.
    fn past(&self, l: usize) -> Option<u32>
        requires low { self.now.unit.first ≤ l }
        requires high { l < self.now.unit.end }
        ensures { StepsPast (program_of self.now.unit) (id_of self.now.unit) self.now.steps.bounds.now self.now.table.items l result }
    {
        let v = self.table[l - self.unit.first]?;
        Some(self.steps.step(l, self.unit.line(l), v))
    }

    // Whether a longest route to line m, with v steps, may come from line l.
    fn leads(&self, l: usize, m: usize, v: u32) -> bool
        requires low { self.now.unit.first ≤ l }
        requires high { l < self.now.unit.end }
        ensures { Tells result (Leads (program_of self.now.unit) (id_of self.now.unit) self.now.steps.bounds.now self.now.table.items m v l) }
    {
        self.past(l) == Some(v) && goes(&self.unit, l, m)
    }

    // Whether a longest route of the unit, with v steps, may stop at line l.
    fn stops(&self, l: usize, v: u32) -> bool
        requires low { self.now.unit.first ≤ l }
        requires high { l < self.now.unit.end }
        ensures { Tells result (Stops (program_of self.now.unit) (id_of self.now.unit) self.now.steps.bounds.now self.now.table.items v l) }
    {
        self.past(l) == Some(v) && self.unit.line(l).is_exit()
    }

    // The line before line m on a longest route to it; none where that has no step.
    fn previous(&self, m: usize) -> Option<usize>
        requires { OwnOrEnd (program_of self.now.unit) (id_of self.now.unit) m }
        ensures { Precedes (program_of self.now.unit) (id_of self.now.unit) self.now.steps.bounds.now self.now.table.items m result }
    {
        let v = self.table[m - self.unit.first]?;
        if v == 0 {
            return None;
        }
        (self.unit.first..m).find(|&l| self.leads(l, m, v))
    }

    // An EX-type line where a longest route of the unit, with v steps, stops.
    fn last_stop(&self, v: u32) -> Option<usize>
        ensures { MatchOption result ((l : ℕ) → Stops (program_of self.now.unit) (id_of self.now.unit) self.now.steps.bounds.now self.now.table.items v l → ⊥) (λ l. Stops (program_of self.now.unit) (id_of self.now.unit) self.now.steps.bounds.now self.now.table.items v l) }
    {
        (self.unit.first..self.unit.end).find(|&l| self.stops(l, v))
    }

    // The lines of a longest route of the unit, with n steps, the newest first.
    fn trace(&self, n: u32, heap: Global) -> Result<Vec<usize>, AllocError>
        requires { JoinOf max (Whole 0 (steps_after self.now.steps.bounds.now) (program_of self.now.unit) (id_of self.now.unit)) n }
        ensures { IfOk result (λ v. Traced (program_of self.now.unit) (id_of self.now.unit) self.now.steps.bounds.now self.now.table.items n v.items) }
    {
        // kept: `or_else` was tried twice; the proof found nothing of what its closure answers
        let mut next = match self.last_stop(n) {
            Some(l) => Some(l),
            None => self.previous(self.unit.end),
        };
        let mut lines = Vec::new(heap);
        // kept: `successors` has no end by its contract, so no `collect` of it is proved
        while let Some(l) = next {
            lines.push(l)?;
            next = self.previous(l);
        }
        Ok(lines)
    }
}

/// One route of the unit with the greatest number of steps, as its lines in their order. The steps of MAIN ask for the bounds of the
/// mechanisms.
pub fn longest_route(
    unit: &UnitText<'_>,
    bounds: &[u32],
    heap: Global,
) -> Result<Vec<usize>, AllocError>
    requires { BoundsHold (program_of unit.now) (id_of unit.now) bounds.now }
    ensures { IfOk result (λ v. Longest (program_of unit.now) (id_of unit.now) (reverse v.items)) }
{
    let steps = Steps { bounds };
    let table = walk(&steps, unit, heap)?;
    let best = total(&steps, unit, &table);
    let search = Search {
        unit: *unit,
        steps,
        table,
    };
    let mut lines = search.trace(best, heap)?;
    lines.reverse();
    Ok(lines)
}
