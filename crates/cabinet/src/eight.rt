// Eight bytes, one for each port.
ghost use Rattle.std.specs.Prelude.{◌≡◌, ◌<◌, length};
ghost use Rattle.rules.specs.Number.{Bytes};
ghost use Rattle.cabinet.specs.Ports.{answer_read, answer_write, written, zeros};

use crate::fault::PortFault;

/// The bytes of the ports 0 to 7.
// kept: a clause sees the array as a list, without its length or the range of its bytes, so both stand as ghost fields
#[derive(Clone, Copy)]
pub struct EightBytes {
    bytes: [u8; 8],
    ghost eight: { length bytes ≡ 8 },
    ghost small: { Bytes bytes },
}

impl EightBytes {
    /// Eight bytes 0.
    pub fn zero() -> EightBytes
        ensures { result.bytes ≡ zeros }
    {
        EightBytes { bytes: [0; 8] }
    }

    /// The byte of a port. A port above 7 is refused.
    pub fn read(&self, port: u8) -> Result<u8, PortFault>
        ensures { result ≡ answer_read self.now.bytes port }
    {
        self.bytes
            .get(usize::from(port))
            .copied()
            .ok_or(PortFault::PortAboveSeven)
    }

    /// Makes the byte of a port the one given. A port above 7 is refused, and nothing changes then.
    #[tactic(auto, using(crate::proofs::Bytes::set_small))]
    pub fn write(&mut self, port: u8, byte: u8) -> Result<(), PortFault>
        ensures answer { result ≡ answer_write port }
        ensures bytes { self.new.bytes ≡ written self.old.bytes port byte }
        ensures refused { 7 < port → self.new ≡ self.old }
    {
        // kept: after `get_mut` of an array a proof knows its length and no element, so the port is tested here
        if port > 7 {
            return Err(PortFault::PortAboveSeven);
        }
        self.bytes[usize::from(port)] = byte;
        Ok(())
    }
}
