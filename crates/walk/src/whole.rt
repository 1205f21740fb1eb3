// The join over the whole routes of a unit.
ghost use Rattle.std.specs.Prelude.{◌+◌, ◌<◌, ◌≤◌};
ghost use Rattle.walk.specs.Joins.{JoinOf};
ghost use Rattle.walk.specs.Stages.{Stopped};
ghost use Rattle.walk.specs.UnitTexts.{program_of, id_of};
ghost use Rattle.walk.specs.Walked.{Walked, Whole};

use crate::measure::Measure;
use crate::unit_text::UnitText;

// kept: the measure, the unit and the table as a struct whose ghost field is `Walked` was tried: a ghost field is a fact with one proof at
// most, and `Walked` holds the joins that made each entry, so the struct's own proof stayed open.

// Takes in the routes that stop at line i.
fn finish<M: Measure>(
    measure: &M,
    unit: &UnitText<'_>,
    i: usize,
    table: &[Option<M::Value>],
    best: M::Value,
) -> M::Value
    requires low { unit.now.first ≤ i }
    requires within { i < unit.now.end }
    requires walked { Walked M.begins (M.effect measure.now) M.joined (program_of unit.now) (id_of unit.now) table.now }
    requires so_far { JoinOf M.joined (Stopped M.begins (M.effect measure.now) (program_of unit.now) (id_of unit.now) i) best }
    ensures { JoinOf M.joined (Stopped M.begins (M.effect measure.now) (program_of unit.now) (id_of unit.now) (i + 1)) result }
{
    let line = unit.line(i);
    let entry = table[i - unit.first];
    match entry {
        Some(v) if line.is_exit() => measure.join(best, measure.step(i, line, v)),
        _ => best,
    }
}

/// The join over all whole routes of the unit, from the table of its walk.
pub fn total<M: Measure>(measure: &M, unit: &UnitText<'_>, table: &[Option<M::Value>]) -> M::Value
    requires { Walked M.begins (M.effect measure.now) M.joined (program_of unit.now) (id_of unit.now) table.now }
    ensures { JoinOf M.joined (Whole M.begins (M.effect measure.now) (program_of unit.now) (id_of unit.now)) result }
{
    let mut best = table[unit.end - unit.first].unwrap();
    // kept: the line's number stands in the text and in the table, so an iterator would carry both; no plainer.
    for i in unit.first..unit.end {
        best = finish(measure, unit, i, table, best);
    }
    best
}
