// Refusals as a person reads them.
use rules::refusal::{Refusal, Rule};
use std::fmt;
use std::fmt::{Display, Formatter};

/// What a rule asks, or how it is broken, in one sentence.
// kept: no plainer, as the texts of another crate's enum, asked for in one place
fn sentence(rule: Rule) -> &'static str {
    match rule {
        Rule::TooShort =>
            "Fewer bytes are left than the count or the section that begins at this offset needs.",
        Rule::CountOutOfRange => "The count at this offset is outside its range.",
        Rule::ActivationOutside =>
            "The activation bit in the record at this offset is outside the data.",
        Rule::BytesLeftOver => "Bytes are left over behind the last section, from this offset on.",
        Rule::WrongTotal =>
            "The lengths of the modules do not add up to the count of lines at this offset.",
        Rule::UnknownLine =>
            "This line has an unknown code, or a mode that its code does not have.",
        Rule::BadOperand =>
            "The operand of this line is outside the data or the mechanisms, or is not 0 where it has to be.",
        Rule::BadMechanism =>
            "A mechanism is begun or ended wrongly at this line, or at MAIN's end one is open or has not been begun.",
        Rule::BadJump =>
            "The jump at this line does not lead to a later line or to the end of its unit.",
        Rule::BadExit =>
            "EX, EX0 or EX1 stands at this line outside BLOCK_INIT, BLOCK_DONE and the mechanisms.",
        Rule::BadInit => "MECH_INIT stands at this line outside INIT and CLEAR.",
        Rule::BadDepth =>
            "The depth of the stack is wrong at this line, or at a unit's end that stands here.",
        Rule::Uninitialised =>
            "A route of the module of this number reaches its end and leaves a mechanism uninitialised.",
        Rule::BlockStartOutsidePhase0 => "A block start is called outside phase 0.",
        Rule::ReportOutsidePhase2 => "A position report is called outside phase 2.",
        Rule::PortAboveSeven => "A port is above 7.",
    }
}

/// A refusal with the sentence for its rule.
#[derive(Clone, Copy, Debug)]
pub(crate) struct Explained(pub(crate) Refusal);

impl Display for Explained {
    fn fmt<W: fmt::Write>(&self, f: &mut Formatter<W>) -> fmt::Result {
        let Explained(Refusal { rule, layer, place }) = *self;
        let number = u8::from(rule);
        let why = sentence(rule);
        write!(f, "REFUSED {number} {layer} {place}\n{why}")
    }
}
