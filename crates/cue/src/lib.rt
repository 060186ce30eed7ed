// A cue sheet of one session turned into a disc table.
#![tactic(auto)]

mod entry;
mod made;
mod sheet;
pub mod write;
