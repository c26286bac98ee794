// Theorems for a job: it inherits no lock, and no other job's lock yields to it. There is no code in this crate.

#![tactic(auto)]
