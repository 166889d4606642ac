// Bytes and the numbers that they are.
#![tactic(auto)]

pub mod numbers; // numbers.rt: big-endian numbers in bytes
pub mod padding; // padding.rt: a number of four or five bytes filled up to a block
