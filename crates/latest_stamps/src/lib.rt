#![tactic(auto)]

// Demand 3 over the run: the latest stamps of all that waits, is made and is written. No functions.
