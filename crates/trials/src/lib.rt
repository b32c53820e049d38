// The trials: a plan is worked over by moving and interchanging stops and by changing tips.
#![tactic(auto)]

pub mod improve;
pub mod search;
