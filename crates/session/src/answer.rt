// What the calls of a running program answer.
ghost use Rattle.std.specs.Prelude.{◌≡◌};
ghost use Rattle.rules.specs.declared.session.Answer.TheVariants.{Scanned, Refused};

use rules::refusal::Rule;
use rules::session::{Answer, Phase};

/// What a scan answers: its step count and the phase.
#[derive(Clone, Copy)]
pub struct ScanAnswer {
    pub steps: u32,
    pub phase: Phase,
}

impl From<ScanAnswer> for Answer {
    ghost from_gives = { λ scan answer. answer ≡ Scanned scan.steps scan.phase };

    fn from(scan: ScanAnswer) -> Answer {
        let ScanAnswer { steps, phase } = scan;
        Answer::Scanned { steps, phase }
    }
}

/// The refusal of a call: the rule that it breaks, and the phase, which stays.
#[derive(Clone, Copy)]
pub struct CallFault {
    pub rule: Rule,
    pub phase: Phase,
}

impl From<CallFault> for Answer {
    ghost from_gives = { λ fault answer. answer ≡ Refused fault.rule fault.phase };

    fn from(fault: CallFault) -> Answer {
        let CallFault { rule, phase } = fault;
        Answer::Refused { rule, phase }
    }
}
