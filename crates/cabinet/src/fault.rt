// What a cabinet refuses.
ghost use Rattle.std.specs.Prelude.{◌≡◌};
ghost use Rattle.cabinet.specs.Ports.{rule_of_fault};

use rules::refusal::Rule;

/// The refusal of a port that no cabinet has.
#[derive(Clone, Copy, Debug, PartialEq, Eq)]
pub enum PortFault {
    PortAboveSeven,
}

/// The rule that is broken.
impl From<PortFault> for Rule {
    ghost from_gives = { λ fault rule. rule ≡ rule_of_fault fault };

    fn from(fault: PortFault) -> Rule {
        match fault {
            PortFault::PortAboveSeven => Rule::PortAboveSeven,
        }
    }
}
