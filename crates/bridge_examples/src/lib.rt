#![tactic(auto)]

// Examples of the run, as theorems: proofs/ has them.
