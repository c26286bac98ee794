// Theorem: every step on a well-formed machine leaves a well-formed machine. There is no code in this crate.

#![tactic(auto)]
