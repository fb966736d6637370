// A list with its intervals rounded to a base.
ghost use Rattle.std.specs.Prelude.{◌≡◌, ◌++◌, ◌≤◌, length, drop};
ghost use Rattle.refusals.specs.Results.{Passed};
ghost use Rattle.lists.specs.Lists.{count, flows_of, list_of};
ghost use Rattle.lists.specs.Tests.{test4};
ghost use Rattle.bases.specs.Rounding.{rounded_flows};
ghost use Rattle.bases.specs.Tests.{round_answer, round_room};

use crate::flow::rounded_flow;
use crate::tests::{base_of, new_list_tests};
use accepting::tests_1_to_5;
use lists::{count, flow_at};
use pairing::BITS;
use refusals::{Refusal, unless};

// Writes the list of the rounded flows at the room's front; the rest stays.
#[tactic(auto, using(crate::proofs::Writing::write_start, crate::proofs::Writing::write_next, crate::proofs::Writing::write_end))]
fn write_rounded(list: &[u8], base: u16, room: &mut [u8])
    requires { (count list.now ≤ 128) × (test4 (rounded_flows base (flows_of list.now)) ≡ Passed) × (length (list_of (rounded_flows base (flows_of list.now))) ≤ length room.old) }
    ensures { room.new ≡ list_of (rounded_flows base (flows_of list.now)) ++ drop (length (list_of (rounded_flows base (flows_of list.now)))) room.old }
{
    let n = count(list);
    let _ = lists::write_head(n as u16, room);
    for i in 0..n {
        let new = rounded_flow(base, flow_at(list, i));
        let _ = lists::write_record(new, i, room);
    }
}

// Rounds the intervals of a list to a base: tests 1 to 5 of the list, 27, 28, 4 on the new list and 9, and the new list at the
// room's front. It has as many bytes as the old one.
#[tactic(auto, unfolding(bases::specs::Tests::round_tests, refusals::specs::Answers::answer, refusals::specs::Answers::written), using(crate::proofs::Answering::as_long, crate::proofs::Answering::ready))]
pub fn round_list(list: &[u8], base: u64, room: &mut [u8]) -> Result<usize, Refusal>
    ensures value { result ≡ round_answer base list.now (length room.old) }
    ensures room_after { room.new ≡ round_room base list.now room.old }
{
    let mut bits = [0u8; BITS];
    tests_1_to_5(list, &mut bits)?;
    let base = base_of(base)?;
    new_list_tests(list, base)?;
    let size = list.len();
    unless(size <= room.len(), Refusal::Room)?;
    write_rounded(list, base, room);
    Ok(size)
}
