// The certificate of an accepted program.

#![tactic(auto)]

pub mod bounds;
pub mod contents;
pub mod issue;
mod real_unit;
pub mod routes;
pub mod scan;
mod stack;
