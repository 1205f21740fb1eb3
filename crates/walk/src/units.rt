// The units that a formed program has.
ghost use Rattle.std.specs.Prelude.{◌≡◌, MatchOption};
ghost use Rattle.rules.specs.Program.{Real};
ghost use Rattle.rules.specs.declared.unit.UnitId.TheVariants as unit;
ghost use Rattle.rules.specs.Named.{unit_named};
ghost use Rattle.image.specs.Held.{meant};

use crate::unit_text::UnitText;
use rules::unit::{Module, NamedUnit, UnitId};
use text::formed::Formed;
use text::span::Span;

/// The module of a number, of a formed program; nothing where no module has the number.
pub fn module_text(formed: &Formed, number: usize) -> Option<UnitText<'_>>
    ensures { MatchOption result (Real (meant formed.now.layout.program) (unit.Module number) → ⊥) (λ u. (u.formed.now ≡ formed.now) × (unit_named u.id ≡ unit.Module number)) }
{
    let module = Module::try_from(number).ok()?;
    named_text(formed, NamedUnit::Module(module))
}

/// A unit of a formed program; nothing where the program has no such unit.
pub fn unit_text(formed: &Formed, id: UnitId) -> Option<UnitText<'_>>
    ensures { MatchOption result (Real (meant formed.now.layout.program) id → ⊥) (λ u. (u.formed.now ≡ formed.now) × (unit_named u.id ≡ id)) }
{
    match id {
        UnitId::Module(number) => module_text(formed, number),
        UnitId::Mechanism(k) => named_text(formed, NamedUnit::Mechanism(k)),
    }
}

/// A unit of a formed program by name; nothing where the program has no such unit.
pub fn named_text(formed: &Formed, id: NamedUnit) -> Option<UnitText<'_>>
    ensures { MatchOption result (Real (meant formed.now.layout.program) (unit_named id) → ⊥) (λ u. (u.formed.now ≡ formed.now) × (u.id ≡ id)) }
{
    let Span { first, end } = formed.span(id.into())?;
    Some(UnitText {
        formed,
        id,
        first,
        end,
    })
}
