// The lines to which jumps go.
ghost use Rattle.std.specs.Prelude.{Decides};
ghost use Rattle.rules.specs.Form.{Lands, IsBadJump};
ghost use Rattle.rules.specs.Named.{unit_named};
ghost use Rattle.image.specs.Held.{meant};
ghost use Rattle.text.specs.Finds.{Finds};

use crate::layout::Layout;
use crate::layout::placed::Placed;
use rules::unit::NamedUnit;

impl Layout {
    // Whether a place is a line of a unit or its end; a mechanism's end is out of reach.
    fn lands(&self, place: usize, unit: NamedUnit) -> bool
        ensures { Decides result (Lands (meant self.now.program) place (unit_named unit)) }
    {
        let owned = self.owns(unit, place);
        match unit {
            NamedUnit::Module(m) => owned || place == self.end_of(m),
            NamedUnit::Mechanism(_) => owned,
        }
    }

    // Whether a line is a jump that goes neither to a later line nor to the end of its unit.
    fn is_bad_jump(&self, place: usize) -> bool
        ensures { Decides result (IsBadJump (meant self.now.program) place) }
    {
        let Some(Placed { line: jump, unit }) = self.at(place) else {
            return false;
        };
        let target = usize::from(jump.operand);
        jump.is_jump() && (place >= target || !self.lands(target, unit))
    }

    // The first jump that goes neither to a later line nor to the end of its unit.
    pub(crate) fn first_bad_jump(&self) -> Option<usize>
        ensures { Finds (IsBadJump (meant self.now.program)) result }
    {
        (0..self.program.lines.len()).find(|place| self.is_bad_jump(*place))
    }
}
