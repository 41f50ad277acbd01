// How the machine goes on over bytes cut in two, and what stays in its range: laws, no code.

#![tactic(auto)]
