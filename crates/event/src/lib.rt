// GET EVENT STATUS NOTIFICATION, as functions of values: which class it answers, the answer's bytes, and what a media answer clears.
#![tactic(auto)]

pub mod event_answer;
pub mod event_class;
