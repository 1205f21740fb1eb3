// The rules that can be broken, and what a refusal tells.
ghost use Rattle.std.specs.Prelude.{◌≡◌};
ghost use Rattle.rules.specs.Refusal.{rule_number};

use std::fmt;

/// Each rule that a refusal can name.
#[derive(Clone, Copy, Debug, PartialEq, Eq)]
pub enum Rule {
    // of the image
    TooShort,
    CountOutOfRange,
    ActivationOutside,
    BytesLeftOver,
    WrongTotal,
    // of the text, line by line
    UnknownLine,
    BadOperand,
    BadMechanism,
    BadJump,
    BadExit,
    BadInit,
    // of the text, over its routes
    BadDepth,
    Uninitialised,
    // of a session's calls
    BlockStartOutsidePhase0,
    ReportOutsidePhase2,
    // of a cabinet's ports
    PortAboveSeven,
}

impl From<Rule> for u8 {
    /// The number by which a rule is known.
    ghost from_gives = { λ rule n. n ≡ rule_number rule };

    fn from(rule: Rule) -> u8 {
        match rule {
            Rule::TooShort => 1,
            Rule::CountOutOfRange => 2,
            Rule::ActivationOutside => 3,
            Rule::BytesLeftOver => 4,
            Rule::WrongTotal => 5,
            Rule::UnknownLine => 6,
            Rule::BadOperand => 7,
            Rule::BadMechanism => 8,
            Rule::BadJump => 9,
            Rule::BadExit => 10,
            Rule::BadInit => 11,
            Rule::BadDepth => 13,
            Rule::Uninitialised => 14,
            Rule::BlockStartOutsidePhase0 => 20,
            Rule::ReportOutsidePhase2 => 21,
            Rule::PortAboveSeven => 26,
        }
    }
}

/// The layer of a load that refuses: the image, or the text in it.
#[derive(Clone, Copy, Debug, PartialEq, Eq)]
pub enum Layer {
    Image,
    Text,
}

impl fmt::Display for Layer {
    fn fmt<W: fmt::Write>(&self, f: &mut fmt::Formatter<W>) -> fmt::Result {
        f.write_str(match self {
            Layer::Image => "IMAGE",
            Layer::Text => "TEXT",
        })
    }
}

/// The refusal of a load, whole: the rule broken, its layer, and the place, which is an offset of the image or a line of the text.
#[derive(Clone, Copy, Debug, PartialEq, Eq)]
pub struct Refusal {
    pub rule: Rule,
    pub layer: Layer,
    pub place: usize,
}
