// Theorem: a log that is cut anywhere and fed in fragments has the answers and the machine of the whole log. There is no code in this crate.

#![tactic(auto)]
