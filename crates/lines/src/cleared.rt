// The registers as a unit is entered.
ghost use Rattle.std.specs.Prelude.{◌≡◌};
ghost use Rattle.rules.specs.Effect.{cleared};
ghost use Rattle.lines.specs.Views.{registers_of};

use crate::registers::Registers;

/// The registers as a unit is entered: RLO and DR 0, and the stack empty.
pub fn cleared_registers() -> Registers
    ensures { registers_of result ≡ cleared }
{
    Registers::cleared()
}
