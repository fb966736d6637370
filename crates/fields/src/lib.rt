// The field reader and writer: records of packed fields, most significant bit first.
//
// It knows nothing of flows, lists, tables or planning. No public function asks anything of its caller: a slice or a room that is
// too short and a value that is too wide are answers, and a refused write alters no byte.
#![tactic(auto)]

mod bits;
mod kind;
mod record;

pub use kind::Kind;
pub use record::{Misfit, read, read_at, write, write_at};
