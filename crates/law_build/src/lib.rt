// The builder and the bank: what is built is accepted. Laws, no code.

#![tactic(auto)]
