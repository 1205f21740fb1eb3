// The calls of a session, its phases and its answers.
ghost use Rattle.std.specs.Prelude.{◌≡◌};
ghost use Rattle.rules.specs.Phase.{phase_number};

use crate::refusal::Rule;

/// How far a block of the part program has come.
#[derive(Clone, Copy, Debug, PartialEq, Eq)]
pub enum Phase {
    // no block is under way
    Idle,
    // scans run BLOCK_INIT
    Preparing,
    // the axes move, and a position report is waited for
    Moving,
    // scans run BLOCK_DONE
    Closing,
}

impl From<Phase> for u8 {
    /// The number by which a phase is known.
    ghost from_gives = { λ phase n. n ≡ phase_number phase };

    fn from(phase: Phase) -> u8 {
        match phase {
            Phase::Idle => 0,
            Phase::Preparing => 1,
            Phase::Moving => 2,
            Phase::Closing => 3,
        }
    }
}

/// The calls that can be made of a started program.
#[derive(Clone, Copy, Debug, PartialEq, Eq)]
pub enum Call {
    Scan,
    Clear,
    BlockStart,
    PositionReport,
    Halt,
}

/// What a call answers: a scan its step count and the phase, every other call the phase, a refused call the rule and the phase.
#[derive(Clone, Copy, Debug, PartialEq, Eq)]
pub enum Answer {
    Scanned { steps: u32, phase: Phase },
    Done { phase: Phase },
    Refused { rule: Rule, phase: Phase },
}
