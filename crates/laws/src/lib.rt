// Laws that the proofs of several crates cite; no code.
#![tactic(auto)]
