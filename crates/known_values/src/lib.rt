// No code: specs/Rows.antt has the table of known values, proofs/Known.antt that every row holds.
#![tactic(auto)]
