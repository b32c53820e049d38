// One vehicle of the greedy build: its state from task to task, and its words.
#![tactic(auto)]

mod state;
pub mod writer;
