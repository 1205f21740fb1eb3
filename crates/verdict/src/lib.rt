// The verdict on a program: whether it is accepted, and the place for an accepted one.

#![tactic(auto)]

pub mod accepted;
mod depths;
pub mod fault;
mod initialised;
mod judging;
mod null;
pub mod place;
mod units;
