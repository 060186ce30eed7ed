// The mode commands, as functions of values: MODE SENSE(10) and MODE SELECT(10), of page 01h.
#![tactic(auto)]

pub mod mode_select;
pub mod mode_sense;
