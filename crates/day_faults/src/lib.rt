// What is wrong with one word of a day, and the first fault of a part of it: its head, its tips, its stops, its legs.
#![tactic(auto)]

pub mod faults;
pub mod legs;
pub mod parts;
pub mod sizes;
mod words;
