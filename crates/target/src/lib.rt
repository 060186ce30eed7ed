// The target: packets met by the drive, its lent table, its parameter list and its response memory.
#![tactic(auto)]

mod get_event;
mod mode_sense;
pub mod packet;
mod perform;
mod read_sub_channel;
mod read_toc;
