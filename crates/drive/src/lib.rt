// The drive state and the calls on it that are no packets: power-on, button, laying, lifting, and a playing position moved on.
#![tactic(auto)]

pub mod state;
