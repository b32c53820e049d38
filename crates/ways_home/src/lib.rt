// The nearest tip, and whether a vehicle has a way home.
#![tactic(auto)]

pub mod best;
pub mod nearest;
pub mod ways;
