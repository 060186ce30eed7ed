// READ TOC: the bytes of each format, made of a disc and the descriptors of its table.
#![tactic(auto)]

pub mod answer;
mod shown;
