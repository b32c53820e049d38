// What a vehicle carries, where and when it is, and the counts of a plan.
#![tactic(auto)]

pub mod cargo;
pub mod drives;
pub mod limits;
pub mod tally;
