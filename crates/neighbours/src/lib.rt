// The neighbours of each stop.
#![tactic(auto)]

pub mod table;
