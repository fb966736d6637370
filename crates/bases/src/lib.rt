// Intervals that don't divide: what a list becomes when its intervals are rounded to a base, and that the rounded list is related. It
// has no code: `rounding` is its code.
#![tactic(auto)]
