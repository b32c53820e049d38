// Lines of text, each put behind those that stand.
#![tactic(auto)]

mod lines;
mod numbers;
mod put;

pub use put::Text;
