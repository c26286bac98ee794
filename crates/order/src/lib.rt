// Machines made of cells, and operations that see only the cells that they name. There is no rule of document 01 in this crate and no code.

#![tactic(auto)]
