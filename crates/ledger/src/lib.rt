// Theorem: from a fresh machine, each lock's depth and each CPU's hold are accepted acquires minus accepted releases, counted from the log's
// bytes and the answer bytes alone. There is no code in this crate.

#![tactic(auto)]
