// The 2002 scheduling rules, repeated forever; document 01's check of a table against its list; and that the check is exactly
// them. It has no code: `checking` is the check's.
#![tactic(auto)]
