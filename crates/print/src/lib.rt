// Text for the programs: hex, decimals and a check sum, laid into lent memory.
#![tactic(auto)]

pub mod decimal;
mod digits;
pub mod front;
pub mod hex;
pub mod numbers;
pub mod sum;
