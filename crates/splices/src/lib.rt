// Numbers as bytes, and parts written over: definitions and laws. The code is in `codec`.
#![tactic(auto)]
