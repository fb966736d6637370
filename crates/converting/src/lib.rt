// Modem settings to a list: encodings read one by one, their calls turned into flows in slots, and the flows packed.
//
// The public function asks nothing of its caller.
#![tactic(auto)]

mod calls;
mod encodings;
mod items;
mod pack;
mod slots;
mod survey;

pub use pack::list_from_settings;
