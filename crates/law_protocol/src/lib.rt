// What a caller does with a file, and that no way of cutting it matters: laws, no code.

#![tactic(auto)]
