// The lent disc table: its layout, and a descriptor read once into a value with all that is asked of one.
#![tactic(auto)]

pub mod asked;
pub mod layout;
pub mod row;
