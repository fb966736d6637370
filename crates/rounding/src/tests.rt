// Tests 27 and 28, and test 4 on the new list.
ghost use Rattle.std.specs.Prelude.{◌≡◌, IfOk, IfErr};
ghost use Rattle.refusals.specs.Results.{Passed, Refused};
ghost use Rattle.refusals.specs.Tests.{◌⟫◌};
ghost use Rattle.lists.specs.Lists.{flows_of};
ghost use Rattle.lists.specs.Tests.{test4};
ghost use Rattle.bases.specs.Rounding.{rounded_flows};
ghost use Rattle.bases.specs.Tests.{test27, test28};

use crate::flow::rounded_flow;
use lists::{count, flow_at};
use refusals::{Refusal, noted};

// Test 27: the base as a number of 16 bits, where it is 1 to 4,096.
#[tactic(auto, unfolding(bases::specs::Tests::test27))]
pub(crate) fn base_of(base: u64) -> Result<u16, Refusal>
    ensures passed { IfOk result (λ b. (b ≡ base) × (test27 base ≡ Passed)) }
    ensures refused { IfErr result (λ r. test27 base ≡ Refused r) }
{
    match u16::try_from(base) {
        Ok(base) if (1..=4096).contains(&base) => Ok(base),
        _ => Err(Refusal::NoBase),
    }
}

// Test 28 and then 4 on the new list, in one look. The first interval below the base ends it, so test 4 is answered only where every
// interval reaches the base.
#[tactic(auto, using(crate::proofs::Looking::look_start, crate::proofs::Looking::look_below, crate::proofs::Looking::look_next))]
pub(crate) fn new_list_tests(list: &[u8], base: u16) -> Result<(), Refusal>
    ensures { result ≡ (test28 base (flows_of list.now) ⟫ test4 (rounded_flows base (flows_of list.now))) }
{
    let mut rules = Ok(());
    for i in 0..count(list) {
        let f = flow_at(list, i);
        if f.interval < base {
            return Err(Refusal::BelowBase(i + 1));
        }
        let new = rounded_flow(base, f);
        rules = noted(rules, new.keeps(), Refusal::Field(i + 1));
    }
    rules
}
