// What a disc shelf holds: a stream of tables cut apart, what each adds, and the thirteen totals.
#![tactic(auto)]

mod content;
pub mod stream;
pub mod totals;
