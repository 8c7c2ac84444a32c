// From a HEX text to a module's cells: theorems over the contracts of `convert`, of the translator and of the delivery. There is no code.
#![tactic(auto)]
