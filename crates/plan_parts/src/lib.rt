// A plan gone through part by part, from before its first word on.
#![tactic(auto)]

pub mod parts;
pub mod start;
