// The day file of document 01: its fields, and what an accepted day gives.
#![tactic(auto)]

pub mod days;
pub mod fields;
