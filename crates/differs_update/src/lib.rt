// Erase only what differs, and a module: theorems over the contracts of `differences`, of the translator and of the delivery. There is no
// code.
#![tactic(auto)]
