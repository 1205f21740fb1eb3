// One bit of the data, found, tested and set by shift and mask. A bit address is 8 times the place of its byte, plus the bit's number in it.
ghost use Rattle.std.specs.Prelude.{◌≡◌, ◌*◌, ◌<◌, length};
ghost use Rattle.rules.specs.Number.{bit, with_bit};

/// The bit at an address.
#[tactic(auto, using(std::proofs::lemmas::Nat::and_mask))]
pub fn bit_at(bytes: &[u8], address: u16) -> bool
    requires { address < 8 * length bytes.now }
    ensures { result ≡ bit bytes.now address }
{
    let byte = bytes[(address >> 3) as usize];
    (byte >> (address & 7)) & 1 == 1
}

/// Gives the bit at an address a value, and leaves every other bit as it is.
#[tactic(auto, using(crate::proofs::Masks::mask_is, crate::proofs::Masks::or_bit, crate::proofs::Masks::and_bit))]
pub fn set_bit(bytes: &mut [u8], address: u16, value: bool)
    requires { address < 8 * length bytes.old }
    ensures { bytes.new ≡ with_bit bytes.old address value }
{
    let place = (address >> 3) as usize;
    let mask = 1u8 << (address & 7);
    let byte = bytes[place];
    bytes[place] = if value { byte | mask } else { byte & !mask };
}
