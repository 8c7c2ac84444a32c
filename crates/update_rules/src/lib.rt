// Demand 3 over the definitions: how we know that a module holds what the update file said. What a delivery is, and what any delivery of a
// legal recipe's frames leaves. There is no code: crate update_deliver hands the frames over, and crate update says the same over the real
// contracts.
#![tactic(auto)]
