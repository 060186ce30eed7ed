// What every crate stands on: a byte as a number, numbers in bytes, and bytes laid into lent memory.
#![tactic(auto)]

pub mod memory;
pub mod number;
