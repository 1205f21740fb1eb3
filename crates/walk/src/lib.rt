// Measures of routes, and the walk that finds them at each line of a unit.

#![tactic(auto)]

mod lines;
pub mod measure;
pub mod table;
pub mod unit_text;
pub mod units;
pub mod whole;
