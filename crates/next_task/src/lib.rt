// The next task of a vehicle: the choice of a stop, a tip or the way home.
#![tactic(auto)]

mod choice;
pub mod tasks;
