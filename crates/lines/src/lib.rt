// The execution of one line: the bits and numbers of the data, the registers, and what each line does to them.

#![tactic(auto)]

pub mod bits;
pub mod cleared;
mod effects;
pub mod laws;
mod numbers;
pub mod registers;
pub mod stack;
pub mod step;
pub mod turn;
