// A law of the bits of the data.
ghost use Rattle.lines.specs.OneBit.{OnlyThatBit};

/// A write gives its bit the value, and changes no other.
pub fn a_write_changes_one_bit()
    ensures { OnlyThatBit }
{}
