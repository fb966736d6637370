// The check of a table against its list: tests 1 to 7 of the list, 11 and 12 of the table's form, 13 to 18 of both.
//
// It writes nothing but an index of the list, which it is lent. No public function asks anything of its caller.
#![tactic(auto)]

mod belongs;
mod counts;
mod faults;
mod pair;
mod quick;
mod seen;
mod tests;
mod timing;

pub use tests::{check, check_and_index};
