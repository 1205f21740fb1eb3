// A unit of a formed program.
ghost use Rattle.rules.specs.Named.{unit_named};
ghost use Rattle.image.specs.Held.{meant};
ghost use Rattle.walk.specs.Units.{Had, BeginsAt, EndsAt};

use rules::unit::NamedUnit;
use text::formed::Formed;

/// A unit that a formed program has, with its first line and its end, the line after its last.
#[derive(Clone, Copy)]
pub struct UnitText<'a> {
    pub formed: &'a Formed,
    pub id: NamedUnit,
    pub first: usize,
    pub end: usize,
    ghost had: { Had (meant formed.now.layout.program) (unit_named id) },
    ghost first_is: { BeginsAt (meant formed.now.layout.program) (unit_named id) first },
    ghost end_is: { EndsAt (meant formed.now.layout.program) (unit_named id) end },
}
