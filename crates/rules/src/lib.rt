// The vocabulary of TECHNOL programs, their refusals and their sessions. The rules themselves stand in specs/.

#![tactic(auto)]

pub mod line;
pub mod op;
pub mod refusal;
pub mod session;
pub mod unit;
