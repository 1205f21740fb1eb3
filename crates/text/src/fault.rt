// Why a text is refused.
ghost use Rattle.std.specs.Prelude.{◌≡◌};
ghost use Rattle.text.specs.Faults.{text_refusal};
ghost use Rattle.text.specs.declared.fault.CheckFault.TheVariants.{Text, Memory};

use rules::refusal::{Layer, Refusal, Rule};
use std::alloc::{AllocError, AllocFailed};

/// A rule of the text that is broken, with the place where it is: a line, or for `Uninitialised` a module's number.
#[derive(Clone, Copy, Debug, PartialEq, Eq)]
pub enum TextFault {
    UnknownLine(usize),
    BadOperand(usize),
    BadMechanism(usize),
    BadJump(usize),
    BadExit(usize),
    BadInit(usize),
    BadDepth(usize),
    Uninitialised(usize),
}

impl From<TextFault> for Refusal {
    ghost from_gives = { λ f r. r ≡ text_refusal f };

    // The refusal whole: the rule, the layer and the place.
    fn from(fault: TextFault) -> Refusal {
        let (rule, place) = match fault {
            TextFault::UnknownLine(line) => (Rule::UnknownLine, line),
            TextFault::BadOperand(line) => (Rule::BadOperand, line),
            TextFault::BadMechanism(line) => (Rule::BadMechanism, line),
            TextFault::BadJump(line) => (Rule::BadJump, line),
            TextFault::BadExit(line) => (Rule::BadExit, line),
            TextFault::BadInit(line) => (Rule::BadInit, line),
            TextFault::BadDepth(line) => (Rule::BadDepth, line),
            TextFault::Uninitialised(module) => (Rule::Uninitialised, module),
        };
        Refusal {
            rule,
            layer: Layer::Text,
            place,
        }
    }
}

/// Why a check ends without its result: a fault of the text, or want of memory.
#[derive(Clone, Copy, Debug, PartialEq, Eq)]
pub enum CheckFault {
    Text(TextFault),
    Memory,
}

// kept: the From that thiserror writes states no from_gives, so the check would not know which fault a `?` makes
impl From<TextFault> for CheckFault {
    ghost from_gives = { λ f r. r ≡ Text f };

    fn from(fault: TextFault) -> CheckFault {
        CheckFault::Text(fault)
    }
}

impl From<AllocError> for CheckFault {
    ghost from_gives = { λ _ r. r ≡ Memory };

    fn from(_e: AllocError) -> CheckFault {
        CheckFault::Memory
    }
}

impl<T: Drop> From<AllocFailed<T>> for CheckFault {
    ghost from_gives = { λ _ r. r ≡ Memory };

    fn from(_e: AllocFailed<T>) -> CheckFault {
        CheckFault::Memory
    }
}
