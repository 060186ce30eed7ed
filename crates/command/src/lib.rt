// The commands by operation code, and those that look at no disc.
#![tactic(auto)]

mod class;
pub mod decode;
pub mod done;
pub mod field;
pub mod inquiry;
pub mod tray;
