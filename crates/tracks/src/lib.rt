// Tracks of the lent disc table: by number, by block, and whether a run of blocks lies wholly in data tracks, or in audio tracks.
#![tactic(auto)]

pub mod run;
pub mod track;
