// Tests 23, 24, 25, 3 and 4 of a run and its records, in one look through its encodings.
ghost use Rattle.std.specs.Prelude.{◌≡◌, ◌≤◌, ◌<◌, length};
ghost use Rattle.refusals.specs.Tests.{◌⟫◌};
ghost use Rattle.lists.specs.Tests.{test3};
ghost use Rattle.settings.specs.Slots.{channel};
ghost use Rattle.converting.specs.Parts.{counted, survey_of, Recorded};

use crate::encodings::next_encoding;
use crate::slots::{Slot, more};
use lists::few;
use refusals::{Refusal, noted, unless};

// What tests 24, 25, 3 and 4 say in their order, where there are n flows.
#[tactic(auto, unfolding(lists::specs::Tests::test3))]
fn answered(
    missing: Result<(), Refusal>,
    uneven: Result<(), Refusal>,
    n: usize,
    rules: Result<(), Refusal>,
) -> Result<usize, Refusal>
    ensures { result ≡ counted (missing ⟫ uneven ⟫ test3 n ⟫ rules) n }
{
    missing?;
    uneven?;
    unless(few(n), Refusal::Count)?;
    rules?;
    Ok(n)
}

// Tests 23, 24, 25, 3 and 4 in their order: how many flows the run asks for where it passes. The first encoding at fault ends the
// look, so the later tests are answered only where every encoding is sound. The flows of each call are written into the list as it
// is read; where the run passes, all its records then stand there.
pub(crate) fn survey_of(settings: &[u8], slot: Slot, list: &mut [u8]) -> Result<usize, Refusal>
    requires { 772 ≤ length list.old }
    ensures value { result ≡ survey_of (channel slot.microseconds slot.bytes) settings.now }
    ensures recorded { Recorded (channel slot.microseconds slot.bytes) settings.now list.old list.new }
{
    let mut rest = settings;
    let mut k: usize = 1;
    let mut n: usize = 0;
    let mut missing = Ok(());
    let mut uneven = Ok(());
    let mut rules = Ok(());
    while !rest.is_empty() {
        let (call, behind) = next_encoding(rest).ok_or(Refusal::Encoding(k))?;
        missing = noted(missing, call.is_complete(), Refusal::MissingSetting(k));
        uneven = noted(uneven, slot.is_whole(call), Refusal::NotWhole(k));
        let m = more(n, call);
        let kept = slot.write_call(call, n, m, list);
        rules = noted(rules, kept, Refusal::Field(n + 1));
        n += m;
        k += 1;
        rest = behind;
    }
    answered(missing, uneven, n, rules)
}
