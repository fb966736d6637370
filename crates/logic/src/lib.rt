// Facts about tests, numbers and lists in which no rule of document 01 stands. It has no code: every crate's proofs may cite
// them.
#![tactic(auto)]
