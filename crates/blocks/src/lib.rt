// READ CAPACITY, SEEK and READ as functions of the last lead-out, and the range of addresses that READ, SEEK and PLAY test.
#![tactic(auto)]

pub mod blocks;
pub mod range;
