// Live add: one new flow in a running table, without moving anyone.
//
// It writes the new list and the new table into two rooms, or nothing. The public function asks nothing of its caller.
#![tactic(auto)]

mod adding;
mod search;
mod tests;
mod writing;

pub use adding::live_add;
