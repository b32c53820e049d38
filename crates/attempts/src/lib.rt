// A trial of a plan: whether the plan that it gives is kept.
#![tactic(auto)]

pub mod tries;
