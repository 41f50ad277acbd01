// The desk and the bank: every reply to an accepted message passes the desk that holds the same keys. Laws, no code.

#![tactic(auto)]
