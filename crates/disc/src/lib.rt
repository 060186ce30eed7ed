// A lent disc table: fitness, its sessions' parts, and what commands need of it.
#![tactic(auto)]

pub mod disc;
pub mod part;
mod rows;
mod rules;
mod walk;
