// An image of a program, from its bytes to the program that it holds.

#![tactic(auto)]

pub mod fault;
mod making;
pub mod program;
pub mod reading;
mod records;
pub mod sections;
