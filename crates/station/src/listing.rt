// Lines as a person reads them.
use rules::line::Line;
use rules::op::Mnemonic::{
    Abs, Ad, Ca, Ex, Ex0, Ex1, Fl, Fl1, Ge, Jl0, Jl1, La, Ldr, Lo, Lod, Lx, MechBegin, MechEnd,
    MechInit, Sto, Wr,
};
use rules::unit::{Module, UnitId};
use std::fmt;
use std::fmt::{Display, Formatter};

/// A line as its name, with its operand as place and bit, as place and width, or as a number.
#[derive(Clone, Copy)]
pub(crate) struct Instruction(pub(crate) Line);

impl Display for Instruction {
    fn fmt<W: fmt::Write>(&self, f: &mut Formatter<W>) -> fmt::Result {
        let Line {
            code,
            mode,
            operand,
        } = self.0;
        let place = operand / 8;
        let bit = operand % 8;
        match (self.0.mnemonic(), mode) {
            (Some(name @ (Ldr | La | Lo | Lx)), 0) | (Some(name @ Wr), _) => {
                write!(f, "{name} {place}.{bit}")
            }
            (Some(name @ (Ldr | La | Lo | Lx)), 1) => write!(f, "{name} -{place}.{bit}"),
            (Some(name @ (La | Lo | Lx)), 2) | (Some(name @ (Ca | Ex | Ex0 | Ex1)), _) => {
                write!(f, "{name}")
            }
            (Some(name @ (Fl | Fl1)), _) => write!(f, "{name} {mode},{place}.{bit}"),
            (Some(name @ (Jl0 | Jl1 | MechBegin | MechEnd | MechInit)), _) => {
                write!(f, "{name} {operand}")
            }
            (Some(name @ (Lod | Sto | Ad | Ge)), _) => write!(f, "{name} {operand} width {mode}"),
            (Some(name @ Abs), _) => write!(f, "{name} width {mode}"),
            (None | Some(Ldr | La | Lo | Lx), _) => {
                write!(f, "? code {code} mode {mode} operand {operand}")
            }
        }
    }
}

/// A unit as the name of its module or the number of its mechanism, padded to 12 places.
#[derive(Clone, Copy)]
pub(crate) struct UnitName(pub(crate) UnitId);

impl Display for UnitName {
    fn fmt<W: fmt::Write>(&self, f: &mut Formatter<W>) -> fmt::Result {
        match self.0 {
            UnitId::Module(number) => match Module::try_from(number) {
                Ok(module) => write!(f, "{module:<12}"),
                Err(_) => write!(f, "{:<12}", "?"),
            },
            UnitId::Mechanism(mechanism) => write!(f, "mechanism {mechanism:<2}"),
        }
    }
}
