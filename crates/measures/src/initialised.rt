// Which mechanisms are initialised.
ghost use Rattle.measures.specs.Lawful.{set_laws};
ghost use Rattle.measures.specs.Models.{set_of, set_after, in_both};

use crate::mechanism_set::MechanismSet;
use rules::line::Line;
use rules::op::Mnemonic;
use walk::measure::Measure;

/// The mechanisms that every route has initialised.
#[derive(Clone, Copy)]
pub struct Initialised;

impl Measure for Initialised {
    type Value = MechanismSet;

    ghost begins = { set_of 0 };

    ghost effect = { λ m. set_after };

    ghost joined = { in_both };

    ghost laws = { λ m. set_laws };

    fn start(&self) -> MechanismSet {
        MechanismSet::default()
    }

    fn step(&self, at: usize, line: Line, v: MechanismSet) -> MechanismSet {
        if line.is(Mnemonic::MechInit) {
            v.with(line.operand)
        } else {
            v
        }
    }

    fn join(&self, a: MechanismSet, b: MechanismSet) -> MechanismSet {
        a.intersection(b)
    }
}
