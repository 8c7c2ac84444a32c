// Document 01's samples as one table of definitions (specs/Samples.antt), with a single statement (proofs/Table.antt). There is no code:
// the program `samples` runs them.
#![tactic(auto)]
