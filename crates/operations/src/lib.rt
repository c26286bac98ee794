// The operations of a log as definitions: the machine's cells, the cells that each operation reads and writes, the machine after a record and
// after a log. There is no code here: the runner has it.

#![tactic(auto)]
