// Demand 3 over the real contracts: how we know that a module holds what the update file said. There is no code: crate update_deliver hands
// the frames over, and proofs/ says over its contract, and over those of the translator and the node, what the node then holds.
#![tactic(auto)]
