// Live add: what it is that a new flow fits into a running table, which offset it gets, and that the new pair passes the check. It
// has no function: `adding` is its code.
#![tactic(auto)]
