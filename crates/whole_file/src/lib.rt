// The answer to a whole file: definitions and laws, no code.

#![tactic(auto)]
