// The memory of a started program, and the passes of its modules.

#![tactic(auto)]

pub mod fresh;
pub mod memory;
pub mod pass;
mod place;
mod run;
mod units;
