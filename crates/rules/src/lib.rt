// The rules of splitting a register: definitions (specs/) and the laws proved of them (proofs/). There is no code here.
#![tactic(auto)]
