// The machine says what the whole-file answer says: laws, no code.

#![tactic(auto)]
