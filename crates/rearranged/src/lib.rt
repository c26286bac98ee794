// Theorem: a log rearranged with the order of clashing records kept gives each record the same answer, and the same end machine. There is no
// code in this crate.

#![tactic(auto)]
