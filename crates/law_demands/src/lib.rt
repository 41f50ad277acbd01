// The promises a bank can hold us to: statements and their proofs, no code.

#![tactic(auto)]
