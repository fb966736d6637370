// Sheet to list: a sheet read line by line, and its flows packed.
//
// The public function asks nothing of its caller.
#![tactic(auto)]

mod line;
mod pack;
mod survey;

pub use pack::list_from_sheet;
