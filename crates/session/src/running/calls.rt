// The start, the calls of a running program, and the halt.
ghost use Rattle.std.specs.Prelude.{◌≡◌, MatchResult};
ghost use Rattle.rules.specs.declared.session.Call.TheVariants.{Scan, Clear, BlockStart, PositionReport};
ghost use Rattle.rules.specs.declared.session.Answer.TheVariants.{Scanned, Done, Refused};
ghost use Rattle.machine.specs.Views.{program_of};
ghost use Rattle.session.specs.Calls.{call_of};
ghost use Rattle.session.specs.Called.{Started, Called, HaltedFrom};

use super::{Left, Running};
use crate::answer::{CallFault, ScanAnswer};
use crate::call::SessionCall;
use crate::fitted::Fitted;
use crate::observer::Observer;
use cabinet::Cabinet;
use cabinet::ports::terminals;
use rules::refusal::Rule;
use rules::session::{Answer, Call, Phase};
use rules::unit::Module;
use std::alloc::{AllocError, Global};
use verdict::accepted::Accepted;

/// Starts a program on a cabinet: the memory is fresh and the phase 0, INIT is run, and the outputs are sent.
/// Where memory is wanting, the cabinet comes back as it was.
pub fn start<'p, C: Cabinet>(
    program: &'p Accepted,
    mut cabinet: C,
    heap: Global,
) -> Result<Running<'p, C>, (C, AllocError)>
    ensures { MatchResult result (λ t. Started C.Cabinet.meaning (program_of program.now) cabinet t) (λ e. e.0 ≡ cabinet) }
{
    let mut fitted = match Fitted::fresh(program, heap) {
        Ok(fitted) => fitted,
        Err(e) => return Err((cabinet, e)),
    };
    fitted.pass(Module::Init);
    fitted.send_outputs(&mut cabinet);
    Ok(Running {
        fitted,
        cabinet,
        phase: Phase::Idle,
    })
}

/// The answer of a call that can be refused.
fn answered(outcome: Result<Phase, CallFault>) -> Answer
    ensures { MatchResult outcome (λ phase. result ≡ Done phase) (λ fault. result ≡ Refused fault.rule fault.phase) }
{
    outcome.map_or_else(Answer::from, |phase| Answer::Done { phase })
}

impl<C: Cabinet> Running<'_, C> {
    /// A scan: reads the inputs, runs INPUT, the block part and MAIN, sends the outputs and advances the cabinet.
    pub fn scan(&mut self) -> ScanAnswer
        ensures { Called C.Cabinet.meaning self.old Scan (Scanned result.steps result.phase) self.new }
    {
        let answer = self.fitted.scan(&self.cabinet, self.phase);
        self.phase = answer.phase;
        self.fitted.send_outputs(&mut self.cabinet);
        self.cabinet.advance();
        answer
    }

    /// A clear: runs CLEAR, sets phase 0, returns the points of the block modules, and sends the outputs.
    pub fn clear(&mut self) -> Phase
        ensures { Called C.Cabinet.meaning self.old Clear (Done result) self.new }
    {
        self.fitted.pass(Module::Clear);
        self.fitted.return_block_points();
        self.phase = Phase::Idle;
        self.fitted.send_outputs(&mut self.cabinet);
        Phase::Idle
    }

    /// A block start: sets phase 1 in phase 0, and is refused in any other phase.
    pub fn block_start(&mut self) -> Result<Phase, CallFault>
        ensures { MatchResult result (λ q. Called C.Cabinet.meaning self.old BlockStart (Done q) self.new) (λ e. Called C.Cabinet.meaning self.old BlockStart (Refused e.rule e.phase) self.new × (self.new ≡ self.old)) }
    {
        match self.phase {
            Phase::Idle => {
                self.phase = Phase::Preparing;
                Ok(Phase::Preparing)
            }
            phase => Err(CallFault {
                rule: Rule::BlockStartOutsidePhase0,
                phase,
            }),
        }
    }

    /// A position report: in phase 2 it sets phase 3 where ZAV_FCE is 1, else 0, and it is refused in any other phase.
    pub fn position_report(&mut self) -> Result<Phase, CallFault>
        ensures { MatchResult result (λ q. Called C.Cabinet.meaning self.old PositionReport (Done q) self.new) (λ e. Called C.Cabinet.meaning self.old PositionReport (Refused e.rule e.phase) self.new × (self.new ≡ self.old)) }
    {
        match self.phase {
            Phase::Moving => {
                self.phase = self.fitted.phase_after_report();
                Ok(self.phase)
            }
            phase => Err(CallFault {
                rule: Rule::ReportOutsidePhase2,
                phase,
            }),
        }
    }

    /// The halt: runs HALT and sends the outputs. What is left has no call.
    pub fn halt(self) -> Left<C>
        ensures { HaltedFrom C.Cabinet.meaning self.entry result }
    {
        let Running {
            mut fitted,
            mut cabinet,
            phase,
        } = self;
        fitted.pass(Module::Halt);
        fitted.send_outputs(&mut cabinet);
        Left {
            cabinet,
            memory: fitted.memory,
            phase,
        }
    }

    /// One call, with its answer.
    pub fn perform(&mut self, call: SessionCall) -> Answer
        ensures { Called C.Cabinet.meaning self.old (call_of call) result self.new }
    {
        match call {
            SessionCall::Scan => self.scan().into(),
            SessionCall::Clear => Answer::Done {
                phase: self.clear(),
            },
            SessionCall::BlockStart => answered(self.block_start()),
            SessionCall::PositionReport => answered(self.position_report()),
        }
    }

    /// Leaves a running program as it is, and hands its cabinet, memory and phase over.
    pub fn into_parts(self) -> Left<C>
        ensures { result ≡ record { cabinet = self.entry.cabinet; memory = self.entry.fitted.memory; phase = self.entry.phase } }
    {
        let Running {
            fitted,
            cabinet,
            phase,
        } = self;
        Left {
            cabinet,
            memory: fitted.memory,
            phase,
        }
    }

    /// Tells an observer of the start, or of a call that was made, and what it answered.
    pub(crate) fn show<O: Observer>(&self, observer: &mut O, call: Option<Call>, answer: Answer) {
        observer.note(call, answer, &self.fitted.memory, terminals(&self.cabinet));
    }
}

impl<C: Cabinet> Left<C> {
    /// Tells an observer of the halt, and what it answered.
    pub(crate) fn show<O: Observer>(&self, observer: &mut O, answer: Answer) {
        observer.note(
            Some(Call::Halt),
            answer,
            &self.memory,
            terminals(&self.cabinet),
        );
    }
}
