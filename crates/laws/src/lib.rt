// Theorems over the rules of the other crates. There is no code in this crate.

#![tactic(auto)]
