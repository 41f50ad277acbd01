// No stamp is accepted twice, over every sequence of calls: laws, no code.

#![tactic(auto)]
