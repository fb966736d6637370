// What a walk over the grants of a table sees.
ghost use Rattle.std.specs.Prelude.{◌≡◌};
ghost use Rattle.refusals.specs.Tests.{◌⟫◌};

use facts::occupies;
use flows::Flow;
use refusals::{Refusal, noted};
use tables::Grant;

// What tests 16, 17 and 18 say of the grants so far, each by its first fault, and the slot behind the last grant.
#[derive(Clone, Copy)]
pub struct Seen {
    pub timing: Result<(), Refusal>,
    pub overlap: Result<(), Refusal>,
    pub past: Result<(), Refusal>,
    pub end: u64,
}

impl Seen {
    ghost use Rattle.checking.specs.Parts.{next};

    // No grant is seen.
    pub(crate) const NONE: Seen = Seen {
        timing: Ok(()),
        overlap: Ok(()),
        past: Ok(()),
        end: 0,
    };

    // What is seen with grant g of flow f, whose record is counted as `here`.
    pub(crate) fn next(self, timely: bool, f: Flow, g: Grant, cycle: u16, here: usize) -> Seen
        ensures { result ≡ next self timely f g cycle here }
    {
        let start = u64::from(g.start);
        let end = start + u64::from(occupies(f));
        Seen {
            timing: noted(self.timing, timely, Refusal::Timing(here)),
            overlap: noted(self.overlap, self.end <= start, Refusal::Overlap(here)),
            past: noted(self.past, end <= u64::from(cycle), Refusal::PastCycle(here)),
            end,
        }
    }

    // What tests 16, 17 and 18 say, in their order.
    pub(crate) fn answer(self) -> Result<(), Refusal>
        ensures { result ≡ (self.timing ⟫ self.overlap ⟫ self.past) }
    {
        self.timing?;
        self.overlap?;
        self.past
    }
}
