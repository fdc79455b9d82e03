#![tactic(auto)]

// The run by its definition: the turns of an event over the nodes, and the events of a passage; and what rows and counts stand for. No functions.
