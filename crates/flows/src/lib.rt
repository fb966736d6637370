// A flow: its rule, how often it is granted, and the flow of four plain numbers. Its record is defined here; `lists` reads and writes it.
//
// It knows nothing of lists, tables or planning. No function asks anything of its caller.
#![tactic(auto)]

mod asked;
mod cycle;
mod flow;

pub use asked::new_flow;
pub use cycle::times;
pub use flow::Flow;
