// Small programs with the refusal that each must get.

#![tactic(auto)]

pub mod building;
#[cfg(test)]
mod tests;
