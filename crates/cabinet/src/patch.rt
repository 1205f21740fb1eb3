// A cabinet whose advance copies each terminal to the input of that number.
ghost use Rattle.std.specs.Prelude.{◌≡◌};
ghost use Rattle.cabinet.specs.Meanings.{patch_meaning};
ghost use Rattle.cabinet.specs.Ports.{zeros};
ghost use Rattle.std.proofs.Common.{rules};

use crate::Cabinet;
use crate::eight::EightBytes;
use crate::fault::PortFault;

/// The patch cabinet: each terminal is wired to the input of its number.
#[derive(Drop)]
pub struct Patch {
    inputs: EightBytes,
    terminals: EightBytes,
}

impl Patch {
    /// A patch cabinet with all bytes 0.
    pub fn new() -> Patch
        ensures inputs { result.inputs.bytes ≡ zeros }
        ensures terminals { result.terminals.bytes ≡ zeros }
    {
        Patch {
            inputs: EightBytes::zero(),
            terminals: EightBytes::zero(),
        }
    }
}

impl Cabinet for Patch {
    ghost meaning = { patch_meaning };

    ghost lawful = { Prim.search rules };

    fn input(&self, port: u8) -> Result<u8, PortFault> {
        self.inputs.read(port)
    }

    fn terminal(&self, port: u8) -> Result<u8, PortFault> {
        self.terminals.read(port)
    }

    fn write(&mut self, port: u8, byte: u8) -> Result<(), PortFault> {
        self.terminals.write(port, byte)
    }

    fn advance(&mut self) {
        self.inputs = self.terminals;
    }
}
