// What a pass holds besides the memory.
ghost use Rattle.std.specs.Prelude.{◌≡◌};
ghost use Rattle.rules.specs.Effect.{cleared};
ghost use Rattle.lines.specs.Views.{registers_of};

use crate::stack::Stack;

/// RLO, DR and the stack.
#[derive(Clone, Copy)]
pub struct Registers {
    pub rlo: bool,
    pub dr: u32,
    pub stack: Stack,
}

impl Registers {
    /// The registers as a unit is entered: RLO and DR 0, and the stack empty.
    pub fn cleared() -> Registers
        ensures { registers_of result ≡ cleared }
    {
        Registers {
            rlo: false,
            dr: 0,
            stack: Stack::new(),
        }
    }
}
