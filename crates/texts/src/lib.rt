// What the program prints: the lines of a plan, or of a refusal, at the front of a room.
//
// No public function asks anything of its caller.
#![tactic(auto)]

mod form;
mod line;
mod plan;
mod refused;

pub use plan::plan_text;
pub use refused::refusal_text;
