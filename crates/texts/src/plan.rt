// The text of a plan.
ghost use Rattle.std.specs.Prelude.{◌≡◌, length};
ghost use Rattle.refusals.specs.Results.{Passed};
ghost use Rattle.refusals.specs.Answers.{answer, written};
ghost use Rattle.tables.specs.Tables.{grants_from};
ghost use Rattle.texts.specs.Texts.{grant_lines, plan_text};
ghost use Rattle.words.specs.Places.{Prints};

use crate::line::{print_grant, print_head};
use refusals::{Refusal, unless};

// Prints the lines of a table's first n grants at a place of the room.
fn print_grants(table: &[u8], n: usize, room: &mut [u8], from: usize) -> usize
    ensures { Prints room.old from (grant_lines (grants_from table.now 0 n)) result room.new }
{
    let mut at = from;
    for i in 0..n {
        at = print_grant(tables::grant_at(table, i), room, at);
    }
    at
}

// Prints the text of a list and its table at the room's front.
fn print_plan(list: &[u8], table: &[u8], room: &mut [u8]) -> usize
    ensures { Prints room.old 0 (plan_text list.now table.now) result room.new }
{
    let load = facts::facts_of(list).load;
    let n = tables::count(table);
    let at = print_head(tables::cycle(table), tables::frame(table), n, load, room);
    print_grants(table, n, room, at)
}

// The text of a list and its table at the room's front, or the refusal of a room that is too short.
pub fn plan_text(list: &[u8], table: &[u8], room: &mut [u8]) -> Result<usize, Refusal>
    ensures value { result ≡ answer Passed (plan_text list.now table.now) (length room.old) }
    ensures room_after { room.new ≡ written Passed (plan_text list.now table.now) room.old }
{
    let size = print_plan(list, table, &mut []);
    unless(size <= room.len(), Refusal::Room)?;
    Ok(print_plan(list, table, room))
}
