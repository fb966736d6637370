// A flow whose interval is rounded to a base.
ghost use Rattle.std.specs.Prelude.{◌≡◌};
ghost use Rattle.bases.specs.Rounding.{rounded, rounded_flow};

use flows::Flow;

// The largest base times a power of two not above the interval; 0 where there is none. The power is the place of the highest one bit
// of how often the base goes into the interval.
#[tactic(auto, using(crate::proofs::Powers::goes_never, crate::proofs::Powers::bit_there, crate::proofs::Powers::bit_rounded))]
fn rounded(base: u16, interval: u16) -> u16
    ensures { result ≡ rounded base interval }
{
    match interval.checked_div(base) {
        None | Some(0) => 0,
        Some(times) => base << (15 - times.leading_zeros()),
    }
}

// The flow with its interval rounded: the size stays, and the jitter is capped at the new interval less one.
#[tactic(auto, unfolding(bases::specs::Rounding::rounded_flow))]
pub(crate) fn rounded_flow(base: u16, f: Flow) -> Flow
    ensures { result ≡ rounded_flow base f }
{
    let interval = rounded(base, f.interval);
    Flow {
        interval,
        jitter: f.jitter.min(interval.saturating_sub(1)),
        ..f
    }
}
