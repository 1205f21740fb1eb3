// The operations that lines name, and the codes of their names.
ghost use Rattle.std.specs.Prelude.{◌≡◌};
ghost use Rattle.std.specs.Option.{option_map};
ghost use Rattle.rules.specs.declared.op.Width.{Width};
ghost use Rattle.rules.specs.declared.op.Op.{Op};
ghost use Rattle.rules.specs.Op.{code_of, bytes_of, by_width, IsNamedBy};

use std::fmt;

/// The names of the lines.
#[derive(Clone, Copy, Debug, PartialEq, Eq)]
pub enum Mnemonic {
    Ldr,
    La,
    Lo,
    Lx,
    Ca,
    Wr,
    Fl,
    Fl1,
    Jl0,
    Jl1,
    Ex,
    Ex0,
    Ex1,
    Lod,
    Sto,
    Ad,
    Abs,
    Ge,
    MechBegin,
    MechEnd,
    MechInit,
}

impl fmt::Display for Mnemonic {
    fn fmt<W: fmt::Write>(&self, f: &mut fmt::Formatter<W>) -> fmt::Result {
        f.write_str(match self {
            Mnemonic::Ldr => "LDR",
            Mnemonic::La => "LA",
            Mnemonic::Lo => "LO",
            Mnemonic::Lx => "LX",
            Mnemonic::Ca => "CA",
            Mnemonic::Wr => "WR",
            Mnemonic::Fl => "FL",
            Mnemonic::Fl1 => "FL1",
            Mnemonic::Jl0 => "JL0",
            Mnemonic::Jl1 => "JL1",
            Mnemonic::Ex => "EX",
            Mnemonic::Ex0 => "EX0",
            Mnemonic::Ex1 => "EX1",
            Mnemonic::Lod => "LOD",
            Mnemonic::Sto => "STO",
            Mnemonic::Ad => "AD",
            Mnemonic::Abs => "ABS",
            Mnemonic::Ge => "GE",
            Mnemonic::MechBegin => "MECH_BEGIN",
            Mnemonic::MechEnd => "MECH_END",
            Mnemonic::MechInit => "MECH_INIT",
        })
    }
}

/// A code that stands for no name.
#[derive(Clone, Copy, Debug, PartialEq, Eq)]
pub struct UnknownCode(pub u8);

impl From<Mnemonic> for u8 {
    ghost from_gives = { λ name code. code ≡ code_of name };

    fn from(name: Mnemonic) -> u8 {
        match name {
            Mnemonic::Ldr => 1,
            Mnemonic::La => 2,
            Mnemonic::Lo => 3,
            Mnemonic::Lx => 4,
            Mnemonic::Ca => 5,
            Mnemonic::Wr => 6,
            Mnemonic::Fl => 7,
            Mnemonic::Fl1 => 8,
            Mnemonic::Jl0 => 9,
            Mnemonic::Jl1 => 10,
            Mnemonic::Ex => 11,
            Mnemonic::Ex0 => 12,
            Mnemonic::Ex1 => 13,
            Mnemonic::Lod => 16,
            Mnemonic::Sto => 17,
            Mnemonic::Ad => 19,
            Mnemonic::Abs => 20,
            Mnemonic::Ge => 21,
            Mnemonic::MechBegin => 22,
            Mnemonic::MechEnd => 23,
            Mnemonic::MechInit => 24,
        }
    }
}

impl TryFrom<u8> for Mnemonic {
    type Error = UnknownCode;

    ghost try_from_gives = { IsNamedBy };

    #[inline(always)]
    fn try_from(code: u8) -> Result<Mnemonic, UnknownCode> {
        match code {
            1 => Ok(Mnemonic::Ldr),
            2 => Ok(Mnemonic::La),
            3 => Ok(Mnemonic::Lo),
            4 => Ok(Mnemonic::Lx),
            5 => Ok(Mnemonic::Ca),
            6 => Ok(Mnemonic::Wr),
            7 => Ok(Mnemonic::Fl),
            8 => Ok(Mnemonic::Fl1),
            9 => Ok(Mnemonic::Jl0),
            10 => Ok(Mnemonic::Jl1),
            11 => Ok(Mnemonic::Ex),
            12 => Ok(Mnemonic::Ex0),
            13 => Ok(Mnemonic::Ex1),
            16 => Ok(Mnemonic::Lod),
            17 => Ok(Mnemonic::Sto),
            19 => Ok(Mnemonic::Ad),
            20 => Ok(Mnemonic::Abs),
            21 => Ok(Mnemonic::Ge),
            22 => Ok(Mnemonic::MechBegin),
            23 => Ok(Mnemonic::MechEnd),
            24 => Ok(Mnemonic::MechInit),
            _ => Err(UnknownCode(code)),
        }
    }
}

/// The three ways to join two bits.
#[derive(Clone, Copy, Debug, PartialEq, Eq)]
pub enum Logic {
    And,
    Or,
    Xor,
}

/// How many bytes a number has.
#[derive(Clone, Copy, Debug, PartialEq, Eq)]
pub enum Width {
    One,
    Two,
    Four,
}

impl Width {
    /// The number of bytes.
    pub fn bytes(self) -> usize
        ensures { result ≡ bytes_of self }
    {
        match self {
            Width::One => 1,
            Width::Two => 2,
            Width::Four => 4,
        }
    }

    /// The width that a mode names, or none.
    pub fn named(mode: u8) -> Option<Width>
        ensures { (f : Width → Op) → option_map f result ≡ by_width mode f }
    {
        match mode {
            1 => Some(Width::One),
            2 => Some(Width::Two),
            4 => Some(Width::Four),
            _ => None,
        }
    }
}

/// The operations. `negated` says that a bit is taken negated, `when` is the RLO at which a jump jumps and at which an exit ends the pass.
#[derive(Clone, Copy, Debug, PartialEq, Eq)]
pub enum Op {
    Ldr {
        negated: bool,
        bit: u16,
    },
    Combine {
        logic: Logic,
        negated: bool,
        bit: u16,
    },
    CombineCell {
        logic: Logic,
    },
    Ca,
    Wr {
        bit: u16,
    },
    Fl {
        value: bool,
        bit: u16,
    },
    Fl1 {
        value: bool,
        bit: u16,
    },
    Jl {
        when: bool,
        line: u16,
    },
    Ex,
    ExIf {
        when: bool,
    },
    Lod {
        width: Width,
        place: u16,
    },
    Sto {
        width: Width,
        place: u16,
    },
    Ad {
        width: Width,
        place: u16,
    },
    Ge {
        width: Width,
        place: u16,
    },
    Abs {
        width: Width,
    },
    MechBegin {
        mechanism: u16,
    },
    MechEnd {
        mechanism: u16,
    },
    MechInit {
        mechanism: u16,
    },
}
