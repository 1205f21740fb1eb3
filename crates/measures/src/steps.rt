// How many steps a route has.
ghost use Rattle.std.specs.Prelude.{◌≡◌, max};
ghost use Rattle.measures.specs.Lawful.{steps_laws};
ghost use Rattle.measures.specs.Models.{bound_of, steps_after};

use rules::line::Line;
use rules::op::Mnemonic;
use walk::measure::Measure;

/// The greatest number of steps: one for each line, and at MECH_BEGIN the bound of its mechanism too.
#[derive(Clone, Copy)]
pub struct Steps<'a> {
    pub bounds: &'a [u32],
}

impl Steps<'_> {
    // What a line adds beside its own step.
    fn bound(&self, line: Line) -> u32
        ensures { result ≡ bound_of self.now.bounds.now line }
    {
        if line.is(Mnemonic::MechBegin) {
            let k = usize::from(line.operand);
            self.bounds.get(k).copied().unwrap_or(0)
        } else {
            0
        }
    }
}

impl<'a> Measure for Steps<'a> {
    type Value = u32;

    ghost begins = { 0 };

    ghost effect = { λ m. steps_after m.bounds.now };

    ghost joined = { max };

    ghost laws = { λ m. steps_laws m.bounds.now };

    fn start(&self) -> u32 {
        0
    }

    fn step(&self, at: usize, line: Line, v: u32) -> u32 {
        v.saturating_add(1).saturating_add(self.bound(line))
    }

    fn join(&self, a: u32, b: u32) -> u32 {
        a.max(b)
    }
}
