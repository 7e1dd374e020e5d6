// The worked cases of RULES 5, RULES 6 and RULES 8, and zone offsets, each of them, as theorems by computing; no code.
#![tactic(auto)]
