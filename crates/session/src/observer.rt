// Who is told of each call of a session.
use machine::memory::Memory;
use rules::session::{Answer, Call};

// kept: a bound on a closure would need a clause that it may be called, which would ask more of who conducts a session
/// Is told of the start, as no call, and of each call in turn: what it answered, and what then stands in memory and at the terminals.
pub trait Observer {
    fn note(&mut self, call: Option<Call>, answer: Answer, memory: &Memory, terminals: [u8; 8]);
}
