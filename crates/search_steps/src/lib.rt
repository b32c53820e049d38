// The search beside the making of a trial: the plan held and its tables, what is listed next, and how the search begins and ends.
#![tactic(auto)]

pub mod held;
pub mod steps;
