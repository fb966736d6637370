// A slot of the channel, and calls in bytes and microseconds turned into flows in slots.
ghost use Rattle.std.specs.Prelude.{◌≡◌, ◌+◌, ◌≤◌, ◌<◌, length};
ghost use Rattle.settings.specs.Slots.{amount};
ghost use Rattle.converting.specs.Parts.{Copied, Taken};

use flows::{Flow, new_flow};
use refusals::{Refusal, unless};
use settings::Call;

// One more than the flows that a list may have.
const TOO_MANY: usize = 129;

// A slot of the channel: how many microseconds it lasts and how many bytes it carries, neither of them zero.
#[derive(Clone, Copy)]
pub(crate) struct Slot {
    microseconds: u64,
    bytes: u64,
    ghost lasts: { 0 < microseconds },
    ghost carries: { 0 < bytes },
}

impl Slot {
    ghost use Rattle.std.specs.Prelude.{MatchResult};
    ghost use Rattle.flows.specs.Flows.{asked};
    ghost use Rattle.refusals.specs.Results.{Passed, Refused};
    ghost use Rattle.settings.specs.Slots.{channel, flow_for};
    ghost use Rattle.settings.specs.Tests.{test26};
    ghost use Rattle.converting.specs.Parts.{is_whole, CallWritten};

    // The slot of this many microseconds and bytes, which test 26 refuses where one of them is zero.
    #[tactic(auto, unfolding(settings::specs::Tests::test26))]
    pub(crate) fn new(microseconds: u64, bytes: u64) -> Result<Slot, Refusal>
        ensures { MatchResult result
            (λ s. (channel s.microseconds s.bytes ≡ channel microseconds bytes) × (test26 (channel microseconds bytes) ≡ Passed))
            (λ r. test26 (channel microseconds bytes) ≡ Refused r) }
    {
        unless(0 < microseconds && 0 < bytes, Refusal::NoChannel)?;
        Ok(Slot {
            microseconds,
            bytes,
        })
    }

    // The call's interval is a whole number of slots.
    pub(crate) fn is_whole(self, call: Call) -> bool
        ensures { result ≡ is_whole self.microseconds call }
    {
        u64::from(call.interval.amount()) % self.microseconds == 0
    }

    // The flow of a call, by the number 1, if it keeps its rule: the size rounds up, the jitter rounds down.
    #[tactic(auto, unfolding(settings::specs::Slots::flow_for, settings::specs::Slots::rounded_up))]
    fn flow_of(self, call: Call) -> Option<Flow>
        ensures { result ≡ asked (flow_for (channel self.microseconds self.bytes) 1 call) }
    {
        let size = u64::from(call.size.amount()).div_ceil(self.bytes);
        let interval = u64::from(call.interval.amount()) / self.microseconds;
        let jitter = u64::from(call.jitter.amount()) / self.microseconds;
        new_flow(1, size, interval, jitter)
    }

    // Writes the k flows that a call makes into the list as its records from n on, if they keep their rule, and answers whether they do.
    pub(crate) fn write_call(self, call: Call, n: usize, k: usize, list: &mut [u8]) -> bool
        requires { n + k ≤ 129 }
        ensures { CallWritten (channel self.microseconds self.bytes) call n k list.old result list.new }
    {
        if k == 0 {
            return true;
        }
        let Some(flow) = self.flow_of(call) else {
            return false;
        };
        write_copies(flow, n, k, list);
        true
    }
}

// How many flows more a call makes where there are n: one for each of its grants, but no more than make too many.
pub(crate) fn more(n: usize, call: Call) -> usize
    requires { n ≤ 129 }
    ensures { Taken n (amount call.grants) result }
{
    (call.grants.amount() as usize).min(TOO_MANY - n)
}

// Writes k flows like f, whose number is 1, into the list as its records from n on, numbered as they come. A record for which there
// is no room is left out.
#[tactic(auto, using(crate::proofs::Copying::copy_start, crate::proofs::Copying::copy_next, crate::proofs::Copying::copy_end))]
fn write_copies(f: Flow, n: usize, k: usize, list: &mut [u8])
    requires { (f.number ≡ 1) × (n + k ≤ 129) }
    ensures { Copied f n k list.old list.new }
{
    for i in n..n + k {
        let copy = Flow {
            number: (i + 1) as u16,
            ..f
        };
        let _ = lists::write_record(copy, i, list);
    }
}
