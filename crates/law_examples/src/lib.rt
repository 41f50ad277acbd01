// Document 01's worked examples P1 to P8: definitions and their proof, no code.

#![tactic(auto)]
