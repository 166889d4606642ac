// Records of a book's bytes: found by halving, put in, rewritten and taken out.
#![tactic(auto)]

pub mod finding; // finding.rt: the search among the records, by halving
pub mod moving; // moving.rt: records moved, written and taken out
