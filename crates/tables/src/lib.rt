// A packed table of grants: its records and its form (tests 11 and 12).
//
// Every record is handed to the field reader as a part of the slice. No public function asks anything of its caller.
#![tactic(auto)]

mod form;
mod packed;

pub use form::form_tests;
pub use packed::{Grant, count, cycle, frame, grant_at, write_head, write_record};
