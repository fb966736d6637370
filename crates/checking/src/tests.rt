// The check, and document 01's tests 13 to 18, in their order.
ghost use Rattle.std.specs.Prelude.{◌≡◌};
ghost use Rattle.refusals.specs.Results.{Passed};
ghost use Rattle.lists.specs.Lists.{flows_of};
ghost use Rattle.lists.specs.Accepted.{Accepted};
ghost use Rattle.law.specs.Check.{tests14to18, law_tests, check};
ghost use Rattle.finding.specs.Parts.{Indexed};
ghost use Rattle.checking.specs.Parts.{flows_in, grants_in};

use crate::belongs::belongs;
use crate::pair::Pair;
use facts::span_of;
use finding::{FLOWS, Index};
use refusals::{Refusal, unless};

// Tests 14 to 18 of a table against its list: a table that passes is told quickly, of any other the walk that notes the faults names the first.
#[tactic(auto, unfolding(law::specs::Check::tests14to18))]
fn tests_14_to_18(pair: &Pair) -> Result<(), Refusal>
    ensures { result ≡ tests14to18 (flows_in pair.now) (grants_in pair.now) }
{
    let mut cells = [0; FLOWS];
    if pair.passes(&mut cells) {
        return Ok(());
    }
    let seen = pair.faults(&mut cells)?;
    pair.test_15(&mut cells)?;
    seen.answer()
}

// Tests 13 to 18: what the law asks of a table whose list has passed tests 1 to 7 and whose form is right. The list's records are noted on the way.
#[tactic(auto, unfolding(law::specs::Check::law_tests, law::specs::Check::test13))]
fn law_tests(list: &[u8], table: &[u8], index: &mut Index) -> Result<(), Refusal>
    requires { Accepted (flows_of list.now) }
    ensures value { result ≡ law_tests (flows_of list.now) table.now }
    ensures indexed { result ≡ Passed → Indexed (flows_of list.now) index.new }
{
    let span = span_of(list);
    unless(belongs(span.cycle, span.frame, table), Refusal::OtherCycle)?;
    index.fill(list);
    tests_14_to_18(&Pair {
        list,
        index,
        cycle: span.cycle,
        table,
    })
}

// The check with an index that the caller lends: it may hold anything before, and where the table passes it is the list's after.
#[tactic(auto, unfolding(law::specs::Check::check))]
pub fn check_and_index(list: &[u8], table: &[u8], index: &mut Index) -> Result<(), Refusal>
    ensures value { result ≡ check list.now table.now }
    ensures indexed { result ≡ Passed → Indexed (flows_of list.now) index.new }
{
    accepting::tests_1_to_7(list, &mut index.nexts)?;
    tables::form_tests(table)?;
    law_tests(list, table, index)
}

// The check of a table against its list: the list by tests 1 to 7, the table's form by 11 and 12, and 13 to 18.
pub fn check(list: &[u8], table: &[u8]) -> Result<(), Refusal>
    ensures { result ≡ check list.now table.now }
{
    // the two arrays begin with different bytes: one run of bytes would be filled by a call of the C library
    let mut index = Index {
        nexts: [0; FLOWS],
        ..Index::EMPTY
    };
    check_and_index(list, table, &mut index)
}
