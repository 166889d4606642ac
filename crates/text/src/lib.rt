// Texts: their characters, and texts at places.
#![tactic(auto)]

pub mod characters; // characters.rt: hex characters, digits, and the alphabets
pub mod digits; // digits.rt: numbers as digits, in hex and in decimal
pub mod names; // names.rt: the characters of names and of hex, eight at once
pub mod reading; // reading.rt: bytes and texts at places of a slice, and the numbers that they are
pub mod writing; // writing.rt: texts put at a place of a slice
