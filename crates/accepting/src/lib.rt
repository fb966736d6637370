// Tests 1 to 7 of a packed list, in their order.
//
// They write nothing but the bytes lent for the bits of the numbers, whatever stands in them before and after. No public function asks
// anything of its caller.
#![tactic(auto)]

mod chain;

pub use chain::{tests_1_to_4, tests_1_to_5, tests_1_to_7};
