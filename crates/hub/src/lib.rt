// Snowploughy's face: every public operation under one roof, and the same operations for C.
//
// Every operation answers for every input; no caller has to check anything first. The promises about them stand in `proofs/`.
#![tactic(auto)]

mod c;

pub use adding::live_add;
pub use c::{
    snowploughy_check, snowploughy_list_from_settings, snowploughy_list_from_sheet,
    snowploughy_live_add, snowploughy_plan, snowploughy_round_list, snowploughy_sheet_from_list,
    snowploughy_window,
};
pub use checking::check;
pub use converting::list_from_settings;
pub use planner::plan;
pub use printing::sheet_from_list;
pub use reading::list_from_sheet;
pub use rounding::round_list;
pub use windows::{Edges, edges_of, window, window_tests};
