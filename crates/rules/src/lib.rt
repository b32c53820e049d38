// The rules of documents 01 and 02: definitions in specs/, and the data types that they speak of. There is no code here.
#![tactic(auto)]

pub mod answers;
pub mod faults;
pub mod texts;
pub mod walk;
