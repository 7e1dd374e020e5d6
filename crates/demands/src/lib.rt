// The demands: theorems about the writer and the reader together; no code.
#![tactic(auto)]
