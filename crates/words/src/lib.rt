// Bits, tags and bytes of numbers: definitions (specs/) and laws (proofs/), each once over the width, the bit's number or the
// tag's width. There is no rule of document 01 in this crate and no code; the crates above cite its laws.

#![tactic(auto)]
