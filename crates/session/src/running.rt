// A program that runs on a cabinet, and what it leaves.
pub mod calls;

use crate::fitted::Fitted;
use machine::memory::Memory;
use rules::session::Phase;

/// A started program on its cabinet, with the memory that it works on and its phase.
#[derive(Drop)]
pub struct Running<'p, C> {
    fitted: Fitted<'p>,
    cabinet: C,
    phase: Phase,
}

/// What a program leaves, halted or not: its cabinet, its memory and its phase. It has no call.
#[derive(Drop)]
pub struct Left<C> {
    pub cabinet: C,
    pub memory: Memory,
    pub phase: Phase,
}
