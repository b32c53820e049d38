// A vehicle whose words are changed by a trial and walked again.
#![tactic(auto)]

pub mod cabs;
pub mod vehicle;
