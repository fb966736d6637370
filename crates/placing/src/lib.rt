// The placing rule over the frames of a window, and the theorems about it. It has no code: `planner` places by it.
#![tactic(auto)]
