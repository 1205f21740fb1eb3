// The lines that stand outside the units to which they belong: EX-type lines, and MECH_INIT.
ghost use Rattle.std.specs.Prelude.{◌≡◌, Decides};
ghost use Rattle.rules.specs.Program.{sequential};
ghost use Rattle.rules.specs.Form.{IsBadExit, IsBadInit};
ghost use Rattle.rules.specs.Named.{unit_named};
ghost use Rattle.image.specs.Held.{meant};
ghost use Rattle.text.specs.Finds.{Finds};

use crate::layout::Layout;
use rules::op::Mnemonic;
use rules::unit::{Module, NamedUnit};

// Whether a unit is sequential: BLOCK_INIT, BLOCK_DONE or a mechanism.
fn is_sequential(unit: NamedUnit) -> bool
    ensures { result ≡ sequential (unit_named unit) }
{
    matches!(
        unit,
        NamedUnit::Module(Module::BlockInit | Module::BlockDone) | NamedUnit::Mechanism(_)
    )
}

impl Layout {
    // Whether a line is EX-type and stands outside the sequential units.
    fn is_bad_exit(&self, place: usize) -> bool
        ensures { Decides result (IsBadExit (meant self.now.program) place) }
    {
        self.at(place)
            .is_some_and(|x| x.line.is_exit() && !is_sequential(x.unit))
    }

    // Whether a line is MECH_INIT and stands outside INIT and CLEAR.
    fn is_bad_init(&self, place: usize) -> bool
        ensures { Decides result (IsBadInit (meant self.now.program) place) }
    {
        self.at(place).is_some_and(|x| {
            x.line.is(Mnemonic::MechInit)
                && x.unit != NamedUnit::Module(Module::Init)
                && x.unit != NamedUnit::Module(Module::Clear)
        })
    }

    // The first EX-type line outside the sequential units.
    pub(crate) fn first_bad_exit(&self) -> Option<usize>
        ensures { Finds (IsBadExit (meant self.now.program)) result }
    {
        (0..self.program.lines.len()).find(|place| self.is_bad_exit(*place))
    }

    // The first MECH_INIT outside INIT and CLEAR.
    pub(crate) fn first_bad_init(&self) -> Option<usize>
        ensures { Finds (IsBadInit (meant self.now.program)) result }
    {
        (0..self.program.lines.len()).find(|place| self.is_bad_init(*place))
    }
}
