// What is found of a text that is brought in.

use crate::faults::TextFault;

// A field at fault, and its first byte.
#[derive(Clone, Copy, PartialEq, Eq, Debug)]
pub struct Offence {
    pub fault: TextFault,
    pub place: usize,
}
