// Rounding the intervals of a list to a base: each becomes the largest base times a power of two not above it.
//
// The public function asks nothing of its caller.
#![tactic(auto)]

mod flow;
mod list;
mod tests;

pub use list::round_list;
