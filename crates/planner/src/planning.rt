// The plan of a list: tests 1 to 10, then the table.
ghost use Rattle.std.specs.Prelude.{◌≡◌, ◌≤◌, length};
ghost use Rattle.refusals.specs.Answers.{answer, written};
ghost use Rattle.lists.specs.Lists.{flows_of};
ghost use Rattle.lists.specs.Facts.{grants, facts_of};
ghost use Rattle.lists.specs.Accepted.{Accepted};
ghost use Rattle.tables.specs.Tables.{place};
ghost use Rattle.planner.specs.Plan.{test10, plan_table, plan_answer, plan_room};

use crate::arrays::Layout;
use crate::grants::write_grants;
use crate::groups::place_all;
use crate::order::fill_order;
use lists::Facts;
use refusals::{Refusal, unless};

// Test 10 and the table, for a list that the tests before it accept, in a room that is long enough. The flows' frames are written in
// bytes that the caller lends, which may hold anything before and after.
#[tactic(auto, unfolding(lists::specs::Facts::facts_of))]
fn place_and_write(
    list: &[u8],
    facts: Facts,
    frames: &mut [u8; 128],
    room: &mut [u8],
) -> Result<usize, Refusal>
    requires accepted { Accepted (flows_of list.now) }
    requires of_list { facts ≡ facts_of (flows_of list.now) }
    requires roomy { place (grants (flows_of list.now)) ≤ length room.old }
    ensures value { result ≡ answer (test10 (flows_of list.now)) (plan_table list.now) (length room.old) }
    ensures room_after { room.new ≡ written (test10 (flows_of list.now)) (plan_table list.now) room.old }
{
    let Facts {
        cycle,
        frame,
        grants,
        ..
    } = facts;
    let Layout {
        mut contents,
        mut limits,
        mut order,
        mut bases,
    } = Layout::empty();
    *frames = [0; Layout::FLOWS];
    let flows = fill_order(list, frame, &mut order);
    let order = &order[..flows];
    place_all(
        list,
        order,
        frame,
        &mut contents,
        &mut limits,
        frames,
        &mut bases,
    )
    .map_err(Refusal::NoFrame)?;
    let width = usize::from(cycle / frame);
    let _ = tables::write_head(grants as u16, cycle, frame, room);
    write_grants(
        list,
        order,
        frame,
        &contents[..width],
        frames,
        &bases,
        &mut limits,
        room,
    );
    Ok(8 + 5 * grants as usize)
}

// Plans the list: its table at the room's front, the rest as it was; or the first refusal, and the room as it was.
#[tactic(auto, unfolding(crate::specs::Plan::plan_answer, crate::specs::Plan::plan_room, crate::specs::Plan::plan_tests, crate::specs::Plan::test8, crate::specs::Plan::test9, refusals::specs::Answers::answer, refusals::specs::Answers::written, lists::specs::Facts::facts_of), using(crate::proofs::Answering::few_grants))]
pub fn plan(list: &[u8], room: &mut [u8]) -> Result<usize, Refusal>
    ensures value { result ≡ plan_answer list.now (length room.old) }
    ensures room_after { room.new ≡ plan_room list.now room.old }
{
    let mut frames = [0; Layout::FLOWS];
    accepting::tests_1_to_7(list, &mut frames)?;
    let facts = facts::facts_of(list);
    unless(facts.load <= u64::from(facts.cycle), Refusal::Overload)?;
    unless(8 + 5 * facts.grants as usize <= room.len(), Refusal::Room)?;
    place_and_write(list, facts, &mut frames, room)
}
