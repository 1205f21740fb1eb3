// Sessions of an accepted program over any cabinet.

#![tactic(auto)]

pub mod answer;
pub mod call;
pub mod conduct;
mod fitted;
pub mod observer;
pub mod running;
mod scanning;
