// The calls of a session before its halt.
ghost use Rattle.std.specs.Prelude.{◌≡◌};
ghost use Rattle.session.specs.Calls.{call_of};

use rules::session::Call;

/// A call that a running program takes and goes on running.
#[derive(Clone, Copy)]
pub enum SessionCall {
    Scan,
    Clear,
    BlockStart,
    PositionReport,
}

/// The call of the rules.
impl From<SessionCall> for Call {
    ghost from_gives = { λ call made. made ≡ call_of call };

    fn from(call: SessionCall) -> Call {
        match call {
            SessionCall::Scan => Call::Scan,
            SessionCall::Clear => Call::Clear,
            SessionCall::BlockStart => Call::BlockStart,
            SessionCall::PositionReport => Call::PositionReport,
        }
    }
}
