// Whole sessions: a start, any list of calls, and perhaps a halt.
use crate::running::Left;
use certificate::contents::Certificate;
use rules::session::{Answer, Call};

pub mod conducting;

/// A session that was conducted: the certificate of its program, what it answered, call by call, and what it left.
#[derive(Drop)]
pub struct Conducted<C> {
    pub certificate: Certificate,
    pub transcript: Vec<(Call, Answer)>,
    pub left: Left<C>,
}
