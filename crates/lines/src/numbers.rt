// Numbers of one, two or four bytes in the data, low byte first, and the arithmetic of DR's low bytes.
ghost use Rattle.std.specs.Prelude.{◌≡◌, ◌+◌, ◌%◌, ◌<◌, ◌≤◌, length, int_le};
ghost use Rattle.rules.specs.Op.{bytes_of};
ghost use Rattle.rules.specs.Number.{number, with_number, modulus, signed, absolute_value};

use rules::op::Width;

// kept: each width has its own bytes; `copy_from_slice` of so many, here and in `store_number`, was tried, and number lines took 1.6 times as long.
/// The number of a width at a place.
pub fn number_at(bytes: &[u8], place: usize, width: Width) -> u32
    requires { place + bytes_of width ≤ length bytes.now }
    ensures { result ≡ number bytes.now place (bytes_of width) }
{
    match width {
        Width::One => u32::from(bytes[place]),
        Width::Two => u32::from(u16::from_le_bytes([bytes[place], bytes[place + 1]])),
        Width::Four => u32::from_le_bytes([
            bytes[place],
            bytes[place + 1],
            bytes[place + 2],
            bytes[place + 3],
        ]),
    }
}

/// Stores the low bytes of a value at a place, as many as the width says.
pub fn store_number(bytes: &mut [u8], place: usize, width: Width, value: u32)
    requires { place + bytes_of width ≤ length bytes.old }
    ensures { bytes.new ≡ with_number bytes.old place (bytes_of width) value }
{
    let [first, second, third, fourth] = value.to_le_bytes();
    bytes[place] = first;
    match width {
        Width::One => {}
        Width::Two => bytes[place + 1] = second,
        Width::Four => {
            bytes[place + 1] = second;
            bytes[place + 2] = third;
            bytes[place + 3] = fourth;
        }
    }
}

// The lowest byte of a register.
#[tactic(auto, using(std::proofs::lemmas::Nat::and_mask))]
fn low8(a: u32) -> u8
    ensures { result ≡ a % modulus 1 }
{
    (a & 0xff) as u8
}

// The lowest two bytes of a register.
#[tactic(auto, using(std::proofs::lemmas::Nat::and_mask))]
fn low16(a: u32) -> u16
    ensures { result ≡ a % modulus 2 }
{
    (a & 0xffff) as u16
}

// kept: a rule of the project; sums and negations are wrapping ones of 8, 16 and 32 bits, on DR's low bytes.
/// The sum of a register's low bytes and a number of that width, without what it carries past them.
pub fn add(a: u32, b: u32, width: Width) -> u32
    ensures { result ≡ (a % modulus (bytes_of width) + b) % modulus (bytes_of width) }
{
    match width {
        Width::One => u32::from(low8(a).wrapping_add(low8(b))),
        Width::Two => u32::from(low16(a).wrapping_add(low16(b))),
        Width::Four => a.wrapping_add(b),
    }
}

// The absolute value of 8 bits, taken as a signed number; the two below do the same of 16 and of 32.
fn absolute8(a: u8) -> u8
    ensures { result ≡ absolute_value 1 a }
{
    if a < 0x80 { a } else { a.wrapping_neg() }
}

fn absolute16(a: u16) -> u16
    ensures { result ≡ absolute_value 2 a }
{
    if a < 0x8000 { a } else { a.wrapping_neg() }
}

fn absolute32(a: u32) -> u32
    ensures { result ≡ absolute_value 4 a }
{
    if a < 0x8000_0000 { a } else { a.wrapping_neg() }
}

/// The absolute value of a register's low bytes, taken as a signed number.
pub fn absolute(a: u32, width: Width) -> u32
    ensures { result ≡ absolute_value (bytes_of width) (a % modulus (bytes_of width)) }
{
    match width {
        Width::One => u32::from(absolute8(low8(a))),
        Width::Two => u32::from(absolute16(low16(a))),
        Width::Four => absolute32(a),
    }
}

/// Whether a register's low bytes are at least a number of that width, both signed.
pub fn at_least(a: u32, b: u32, width: Width) -> bool
    requires { b < modulus (bytes_of width) }
    ensures { result ≡ int_le (signed (bytes_of width) b) (signed (bytes_of width) (a % modulus (bytes_of width))) }
{
    match width {
        Width::One => low8(a).cast_signed() >= low8(b).cast_signed(),
        Width::Two => low16(a).cast_signed() >= low16(b).cast_signed(),
        Width::Four => a.cast_signed() >= b.cast_signed(),
    }
}
