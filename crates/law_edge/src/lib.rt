// What a box gets that keeps its session as bytes: laws of the calls of `edge`, no code.

#![tactic(auto)]
