// The whole-file answer computed on small files: definitions and their proof, no code.

#![tactic(auto)]
