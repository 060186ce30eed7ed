// The sessions of the lent disc table: where each begins, how long it is, and rule 4.
#![tactic(auto)]

pub mod session;
