// The units that a program is known to have.
ghost use Rattle.std.specs.Prelude.{◌≡◌};
ghost use Rattle.rules.specs.Program.{Real};
ghost use Rattle.rules.specs.Named.{unit_named};
ghost use Rattle.image.specs.Held.{meant};

use rules::unit::NamedUnit;
use text::formed::Formed;
use walk::unit_text::UnitText;
use walk::units::named_text;

// A unit that the program has.
pub fn real_unit(formed: &Formed, id: NamedUnit) -> UnitText<'_>
    requires { Real (meant formed.now.layout.program) (unit_named id) }
    ensures { (result.formed.now ≡ formed.now) × (result.id ≡ id) }
{
    named_text(formed, id).unwrap()
}
