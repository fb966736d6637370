// Tests 5 and 6 of a packed list: what a record must have of each earlier one.
//
// They write nothing but the bytes lent for the bits of the numbers, whatever stands in them before and after. No public function asks
// anything of its caller.
#![tactic(auto)]

mod both;
mod intervals;
mod numbers;

pub use both::{new_pair_tests, pair_tests};
pub use numbers::{BITS, number_test};
