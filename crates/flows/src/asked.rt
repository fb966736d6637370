// A flow out of four plain numbers, of any size.
ghost use Rattle.std.specs.Prelude.{◌≡◌};
ghost use Rattle.flows.specs.Flows.{new_flow, asked};

use crate::flow::Flow;

// The flow of these four numbers, of any size, if it keeps the rule of test 4.
#[tactic(auto, unfolding(crate::specs::Flows::keeps))]
pub fn new_flow(number: u64, size: u64, interval: u64, jitter: u64) -> Option<Flow>
    ensures { result ≡ asked (new_flow number size interval jitter) }
{
    let flow = Flow {
        number: u16::try_from(number).ok()?,
        size: u16::try_from(size).ok()?,
        interval: u16::try_from(interval).ok()?,
        jitter: u16::try_from(jitter).ok()?,
    };
    flow.keeps().then_some(flow)
}
