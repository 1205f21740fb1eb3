// The cabinet: eight input bytes and eight terminal bytes, and what each call does to them.

#![tactic(auto)]

ghost use Rattle.std.specs.Prelude.{◌≡◌, ◌<◌};
ghost use Rattle.rules.specs.Cabinet.{Meaning, Lawful, Sent, Advanced};
ghost use Rattle.cabinet.specs.Ports.{answer_read, answer_write, written};

pub mod eight;
pub mod fault;
pub mod patch;
pub mod ports;
pub mod row;
pub mod serving;
pub mod stimulus;

use fault::PortFault;

/// A cabinet. What it means is a ghost member: its eight input bytes, its eight terminal bytes, and its own rule for the inputs at an advance.
pub trait Cabinet {
    ghost meaning: { Meaning Self };

    /// The input byte of a port. A port above 7 is refused.
    fn input(&self, port: u8) -> Result<u8, PortFault>
        ensures { result ≡ answer_read (meaning.inputs self.now) port };

    /// The terminal byte of a port. A port above 7 is refused.
    fn terminal(&self, port: u8) -> Result<u8, PortFault>
        ensures { result ≡ answer_read (meaning.terminals self.now) port };

    /// Makes the terminal of a port the byte given, and changes no other byte. A port above 7 is refused, and nothing changes then.
    fn write(&mut self, port: u8, byte: u8) -> Result<(), PortFault>
        ensures answer { result ≡ answer_write port }
        ensures sent { Sent meaning self.old (written (meaning.terminals self.old) port byte) self.new }
        ensures refused { 7 < port → self.new ≡ self.old };

    /// Goes on to the next scan: keeps the terminals, and makes the inputs what the cabinet's own rule gives.
    fn advance(&mut self)
        ensures { Advanced meaning self.old self.new };

    ghost lawful: { Lawful meaning };
}
