// One word of a plan: its form, then what it does.
#![tactic(auto)]

pub mod steps;
pub mod words;
