// The operator's sheet, a line of text for each flow: what it means, its words, and that sheet and list give each other back.
//
// The words of a line stand once, in `form`; `reading` compares them and `printing` writes them. It has no code.
#![tactic(auto)]

mod form;

pub use form::{EVERY, FEED, FLOW, JITTER, SIZE};
