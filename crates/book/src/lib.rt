// No code: specs/ has what the book that sixteen tenants share promises over all its calls, proofs/ that it holds.
#![tactic(auto)]
