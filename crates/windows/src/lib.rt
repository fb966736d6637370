// The question for a window of a table: tests 11, 12 and 19, and the stretch of its records.
//
// It writes nothing. No public function asks anything of its caller.
#![tactic(auto)]

mod stretch;

pub use stretch::{Edges, edges_of, window, window_tests};
