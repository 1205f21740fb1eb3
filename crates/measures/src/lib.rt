// The measures of routes: steps, depth, initialised mechanisms, and two carried together.

#![tactic(auto)]

pub mod both;
pub mod depth;
pub mod initialised;
pub mod mechanism_set;
pub mod steps;
pub mod survey;
