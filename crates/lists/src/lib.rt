// A packed list of flows: its records, and how many it may have. What they say together and tests 1 to 7 are defined here; `facts` and `accepting` are their
// code.
//
// Every record is handed to the field reader as a part of the slice. No public function asks anything of its caller.
#![tactic(auto)]

mod facts;
mod limits;
mod packed;

pub use facts::Facts;
pub use limits::few;
pub use packed::{count, flow_at, head_of, write_head, write_record};
