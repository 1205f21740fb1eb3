// The text of a program, checked line by line.

#![tactic(auto)]

pub mod bracket;
pub mod fault;
pub mod formed;
pub mod forming;
pub mod layout;
mod lines;
pub mod marks;
pub mod span;
mod tables;
