// The planner: tests 1 to 10 of a packed list, and its table.
//
// The public function asks nothing of its caller. The parts lend each other the layout's arrays and keep their lengths as each asks.
#![tactic(auto)]

mod arrays;
mod flow;
mod frames;
mod grants;
mod groups;
mod intervals;
mod links;
mod order;
mod planning;
mod search;

pub use planning::plan;
