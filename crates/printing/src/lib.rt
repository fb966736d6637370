// List to sheet: the line of each flow of a packed list.
//
// The public function asks nothing of its caller.
#![tactic(auto)]

mod print;

pub use print::sheet_from_list;
