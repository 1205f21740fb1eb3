// Every line at every mode, tried on known data.

#![tactic(auto)]

pub mod ruled;
pub mod tried;
