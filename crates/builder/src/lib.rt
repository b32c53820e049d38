// The greedy build.
#![tactic(auto)]

mod fleet;
pub mod greedy;
pub mod lefts;
