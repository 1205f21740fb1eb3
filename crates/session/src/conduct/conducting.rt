// How a whole session is conducted.
ghost use Rattle.std.specs.Prelude.{◌≡◌, ◌<◌, [], IfOk, vec_len, vec_capacity, MatchResult};
ghost use Rattle.rules.specs.Verdict.{Certified};
ghost use Rattle.machine.specs.Views.{program_of};
ghost use Rattle.session.specs.Conducted.{Promised};

use super::Conducted;
use crate::call::SessionCall;
use crate::observer::Observer;
use crate::running::calls::start;
use cabinet::Cabinet;
use certificate::contents::Certificate;
use certificate::issue::certificate;
use rules::session::{Answer, Call, Phase};
use std::alloc::{AllocError, Global};
use verdict::accepted::Accepted;

/// The certificate of a program, and an empty transcript with room for so many calls and a halt.
fn prepared(
    program: &Accepted,
    calls: usize,
    heap: Global,
) -> Result<(Certificate, Vec<(Call, Answer)>), AllocError>
    ensures { IfOk result (λ q. Certified (program_of program.now) q.0.lines q.0.stack q.0.scan × (q.1.items ≡ []) × (vec_len q.1 ≡ 0) × (calls < vec_capacity q.1)) }
{
    let most = calls.checked_add(1).ok_or(AllocError)?;
    let certificate = certificate(program, heap)?;
    let transcript = Vec::with_capacity(heap, most)?;
    Ok((certificate, transcript))
}

/// Conducts a session of an accepted program on a cabinet: the start, the calls in their order, and a halt if one is to end it. The observer
/// is told of each. Where memory is wanting, nothing is run and the cabinet comes back as it was.
///
/// What is promised, for every accepted program, every cabinet and every list of calls: the certificate is the program's; the session is one
/// by the rules, with exactly these answers, data, points, phase and terminals; and after the start and after each call all holds that a
/// certificate guarantees.
pub fn conduct<C: Cabinet, O: Observer>(
    program: &Accepted,
    cabinet: C,
    calls: &[SessionCall],
    halts: bool,
    observer: &mut O,
    heap: Global,
) -> Result<Conducted<C>, (C, AllocError)>
    ensures { MatchResult result (λ t. Promised C.Cabinet.meaning (program_of program.now) cabinet calls.now halts t) (λ e. e.0 ≡ cabinet) }
{
    let (certificate, mut transcript) = match prepared(program, calls.len(), heap) {
        Ok(parts) => parts,
        Err(e) => return Err((cabinet, e)),
    };
    let mut running = start(program, cabinet, heap)?;
    running.show(observer, None, Answer::Done { phase: Phase::Idle });
    for &call in calls {
        let answer = running.perform(call);
        transcript.push_reserved((call.into(), answer));
        running.show(observer, Some(call.into()), answer);
    }
    let left = if halts {
        let left = running.halt();
        let answer = Answer::Done { phase: left.phase };
        left.show(observer, answer);
        transcript.push_reserved((Call::Halt, answer));
        left
    } else {
        running.into_parts()
    };
    Ok(Conducted {
        certificate,
        transcript,
        left,
    })
}
