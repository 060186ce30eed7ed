// The audio commands, as functions of values: PLAY AUDIO(10), PAUSE/RESUME, READ SUB-CHANNEL.
#![tactic(auto)]

pub mod audio;
pub mod sub_channel;
