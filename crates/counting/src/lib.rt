// How references are counted, one object at a time and over any rule set. The rules stand in specs/, the laws in proofs/; there is no code.
#![tactic(auto)]
