// The attention gate: which attention a packet tells, what it holds as sense, and REQUEST SENSE. It knows no deck.
#![tactic(auto)]

pub mod fault;
pub mod unit;
