// The lines of a program, and what each says: the name that its code stands for, and the operation that its code and mode name.
ghost use Rattle.std.specs.Prelude.{◌≡◌, Bool};
ghost use Rattle.std.specs.Option.{option_map};
ghost use Rattle.rules.specs.declared.op.Op.{Op};
ghost use Rattle.rules.specs.declared.op.Op.TheVariants.{Combine, CombineCell};
ghost use Rattle.rules.specs.Op.{is, is_jump, is_exit, by_negation, by_cell, plain, decode, Names};

use crate::op::{Logic, Mnemonic, Op, Width};

/// A line of a program: its code, its mode and its operand.
#[derive(Clone, Copy, Debug, PartialEq, Eq)]
pub struct Line {
    pub code: u8,
    pub mode: u8,
    pub operand: u16,
}

// Whether mode 0 or mode 1 stands, the second with negation, or with the value 1.
fn negation(mode: u8) -> Option<bool>
    ensures { (f : Bool → Op) → option_map f result ≡ by_negation mode f }
{
    match mode {
        0 => Some(false),
        1 => Some(true),
        _ => None,
    }
}

// An operation without modes, which has mode 0 alone.
fn plain(mode: u8, op: Op) -> Option<Op>
    ensures { result ≡ plain mode op }
{
    if mode == 0 { Some(op) } else { None }
}

// LA, LO and LX: with a bit, or at mode 2 with a cell.
fn combining(logic: Logic, mode: u8, bit: u16) -> Option<Op>
    ensures { result ≡ by_cell mode (λ negated. Combine logic negated bit) (CombineCell logic) }
{
    if mode == 2 {
        return Some(Op::CombineCell { logic });
    }
    negation(mode).map(|negated| Op::Combine {
        logic,
        negated,
        bit,
    })
}

impl Line {
    /// Whether the line has the code of a name.
    pub fn is(self, name: Mnemonic) -> bool
        ensures { result ≡ is name self }
    {
        self.code == u8::from(name)
    }

    /// Whether the line is a jump: JL0 or JL1.
    pub fn is_jump(self) -> bool
        ensures { result ≡ is_jump self }
    {
        self.is(Mnemonic::Jl0) || self.is(Mnemonic::Jl1)
    }

    /// Whether the line is EX-type: EX, EX0 or EX1.
    pub fn is_exit(self) -> bool
        ensures { result ≡ is_exit self }
    {
        self.is(Mnemonic::Ex) || self.is(Mnemonic::Ex0) || self.is(Mnemonic::Ex1)
    }

    /// The name that the line's code stands for, or none.
    pub fn mnemonic(self) -> Option<Mnemonic>
        ensures { Names self result }
    {
        Mnemonic::try_from(self.code).ok()
    }

    /// The operation that the line's code and mode name, or none.
    pub fn decode(self) -> Option<Op>
        ensures { result ≡ decode self }
    {
        let Line {
            code: _,
            mode,
            operand,
        } = self;
        match self.mnemonic()? {
            Mnemonic::Ldr => negation(mode).map(|negated| Op::Ldr {
                negated,
                bit: operand,
            }),
            Mnemonic::La => combining(Logic::And, mode, operand),
            Mnemonic::Lo => combining(Logic::Or, mode, operand),
            Mnemonic::Lx => combining(Logic::Xor, mode, operand),
            Mnemonic::Ca => plain(mode, Op::Ca),
            Mnemonic::Wr => plain(mode, Op::Wr { bit: operand }),
            Mnemonic::Fl => negation(mode).map(|value| Op::Fl {
                value,
                bit: operand,
            }),
            Mnemonic::Fl1 => negation(mode).map(|value| Op::Fl1 {
                value,
                bit: operand,
            }),
            Mnemonic::Jl0 => plain(
                mode,
                Op::Jl {
                    when: false,
                    line: operand,
                },
            ),
            Mnemonic::Jl1 => plain(
                mode,
                Op::Jl {
                    when: true,
                    line: operand,
                },
            ),
            Mnemonic::Ex => plain(mode, Op::Ex),
            Mnemonic::Ex0 => plain(mode, Op::ExIf { when: false }),
            Mnemonic::Ex1 => plain(mode, Op::ExIf { when: true }),
            Mnemonic::Lod => Width::named(mode).map(|width| Op::Lod {
                width,
                place: operand,
            }),
            Mnemonic::Sto => Width::named(mode).map(|width| Op::Sto {
                width,
                place: operand,
            }),
            Mnemonic::Ad => Width::named(mode).map(|width| Op::Ad {
                width,
                place: operand,
            }),
            Mnemonic::Abs => Width::named(mode).map(|width| Op::Abs { width }),
            Mnemonic::Ge => Width::named(mode).map(|width| Op::Ge {
                width,
                place: operand,
            }),
            Mnemonic::MechBegin => plain(mode, Op::MechBegin { mechanism: operand }),
            Mnemonic::MechEnd => plain(mode, Op::MechEnd { mechanism: operand }),
            Mnemonic::MechInit => plain(mode, Op::MechInit { mechanism: operand }),
        }
    }
}
