// The trial list of a plan, and the plan in the tables that the list is read from.
#![tactic(auto)]

pub mod listing;
pub mod pairs;
pub mod places;
pub mod survey;
pub mod tips;
