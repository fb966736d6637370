// Document 01's tests of a packed list, in their order.
ghost use Rattle.std.specs.Prelude.{◌≡◌};
ghost use Rattle.refusals.specs.Tests.{◌⟫◌};
ghost use Rattle.lists.specs.Lists.{count, flows_of};
ghost use Rattle.lists.specs.Tests.{test1, test2, test3, test1exact, test4, test7, tests1to4, tests1to5, tests1to7};
ghost use Rattle.accepting.specs.Parts.{headed};

use facts::facts_of;
use flows::times;
use lists::{count, few, flow_at, head_of};
use pairing::{BITS, number_test, pair_tests};
use refusals::{Refusal, unless};

// The head's edition, kind and spare bits are those of a list.
fn headed(list: &[u8]) -> bool
    ensures { result ≡ headed list.now }
{
    matches!(head_of(list), [1, 1, 0, ..])
}

// Tests 1 to 3, and 1 again for the exact length: all that the head and the length tell.
#[tactic(auto, unfolding(lists::specs::Tests::test1, lists::specs::Tests::test2, lists::specs::Tests::test3, lists::specs::Tests::test1exact))]
fn head_tests(list: &[u8]) -> Result<(), Refusal>
    ensures { result ≡ (test1 list.now ⟫ test2 list.now ⟫ test3 (count list.now) ⟫ test1exact list.now) }
{
    unless(4 <= list.len(), Refusal::Length)?;
    unless(headed(list), Refusal::Head)?;
    let n = count(list);
    unless(few(n), Refusal::Count)?;
    unless(list.len() == 4 + 6 * n, Refusal::Length)
}

// Test 4: the first record that breaks its rule.
fn field_test(list: &[u8]) -> Result<(), Refusal>
    ensures { result ≡ test4 (flows_of list.now) }
{
    for i in 0..count(list) {
        unless(flow_at(list, i).keeps(), Refusal::Field(i + 1))?;
    }
    Ok(())
}

// Test 7: at most 256 frames and 1,024 grants.
#[tactic(auto, unfolding(lists::specs::Tests::test7, lists::specs::Facts::facts_of))]
fn limit_test(list: &[u8]) -> Result<(), Refusal>
    ensures { result ≡ test7 (flows_of list.now) }
{
    let facts = facts_of(list);
    unless(
        times(facts.cycle, facts.frame) <= 256 && facts.grants <= 1024,
        Refusal::Limits,
    )
}

// Tests 1 to 4 of a list.
#[tactic(auto, unfolding(lists::specs::Tests::tests1to4))]
pub fn tests_1_to_4(list: &[u8]) -> Result<(), Refusal>
    ensures { result ≡ tests1to4 list.now }
{
    head_tests(list)?;
    field_test(list)
}

// Tests 1 to 5 of a list. The lent bytes may hold anything before and after.
#[tactic(auto, unfolding(lists::specs::Tests::tests1to5))]
pub fn tests_1_to_5(list: &[u8], bits: &mut [u8; BITS]) -> Result<(), Refusal>
    ensures { result ≡ tests1to5 list.now }
{
    tests_1_to_4(list)?;
    number_test(list, bits)
}

// Tests 1 to 7 of a list. The lent bytes may hold anything before and after.
#[tactic(auto, unfolding(lists::specs::Tests::tests1to7, lists::specs::Tests::tests1to4))]
pub fn tests_1_to_7(list: &[u8], bits: &mut [u8; BITS]) -> Result<(), Refusal>
    ensures { result ≡ tests1to7 list.now }
{
    tests_1_to_4(list)?;
    pair_tests(list, bits)?;
    limit_test(list)
}
