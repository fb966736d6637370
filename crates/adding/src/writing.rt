// The new list and the new table, each written into its room.
ghost use Rattle.std.specs.Prelude.{◌≡◌, true, List, ◌++◌, ℕ, ◌+◌, ◌-◌, ◌/◌, ◌≤◌, ◌<◌, length, take, drop};
ghost use Rattle.std.proofs.lemmas.List.Edits.{sets};
ghost use Rattle.flows.specs.Flows.{keeps};
ghost use Rattle.refusals.specs.Results.{Passed};
ghost use Rattle.lists.specs.Lists.{flows_of};
ghost use Rattle.lists.specs.Tests.{tests1to4};
ghost use Rattle.tables.specs.Tables.{count, cycle_of, frame_of, place, table_of, records_after};
ghost use Rattle.offsets.specs.Adding.{list_bytes, new_list};
ghost use Rattle.adding.specs.Parts.{Joins, NextFrom, grants_after};

use flows::{Flow, times};
use tables::Grant;

// Writes the new list: the old records, and behind them the new flow's.
pub(crate) fn write_list(list: &[u8], f: Flow, room: &mut [u8])
    requires { (tests1to4 list.now ≡ Passed) × (keeps f ≡ true) × (list_bytes (flows_of list.now) f ≤ length room.old) }
    ensures { room.new ≡ new_list list.now f ++ drop (length (new_list list.now f)) room.old }
{
    let n = lists::count(list);
    let end = list.len();
    let _ = lists::write_head((n + 1) as u16, room);
    words::put(&list[4..end], room, 4);
    let _ = lists::write_record(f, n, room);
}

// How many records the new table has: one more for each of the new flow's grants.
#[tactic(auto, using(tables::proofs::Records::count_small))]
pub(crate) fn new_count(table: &[u8], f: Flow) -> usize
    ensures { (result ≡ count table.now + cycle_of table.now / f.interval) × (result < 131072) }
{
    tables::count(table) + usize::from(times(tables::cycle(table), f.interval))
}

// The first record from record i on, of the table's n, that does not start before the slot x; n where all do.
fn next_from(table: &[u8], n: usize, i: usize, x: u16) -> usize
    requires { i ≤ n }
    ensures { NextFrom table.now n i x result }
{
    for j in i..n {
        if x <= tables::grant_at(table, j).start {
            return j;
        }
    }
    n
}

// Copies the table's records from record i up to record j into the room as bytes, each k records further on.
fn copy_records(table: &[u8], i: usize, j: usize, k: usize, room: &mut [u8])
    requires { (i ≤ j) × (place j ≤ length table.now) × (place (j + k) ≤ length room.old) }
    ensures { room.new ≡ sets room.old (place (i + k)) (take (place j - place i) (drop (place i) table.now)) }
{
    words::put(&table[8 + 5 * i..8 + 5 * j], room, 8 + 5 * (i + k));
}

// Writes the grants of the table and the new flow's in the order of their starts: before each new one the old records that start
// before it, behind the last one the rest.
fn write_grants(table: &[u8], f: Flow, offset: u16, room: &mut [u8])
    requires { ((l : List ℕ) × Joins l table.now f) × (offset < f.interval) × (place (count table.now + cycle_of table.now / f.interval) ≤ length room.old) }
    ensures { room.new ≡ records_after 0 (grants_after table.now f offset) room.old }
{
    let n = tables::count(table);
    let more = usize::from(times(tables::cycle(table), f.interval));
    let mut i = 0;
    for k in 0..more {
        let x = offset + k as u16 * f.interval;
        let j = next_from(table, n, i, x);
        copy_records(table, i, j, k, room);
        let grant = Grant {
            flow: f.number,
            start: x,
            late: 0,
        };
        let _ = tables::write_record(grant, j + k, room);
        i = j;
    }
    copy_records(table, i, n, more, room);
}

// Writes the new table: the old grants where they stood, and the new flow's from the offset on.
pub(crate) fn write_table(table: &[u8], f: Flow, offset: u16, room: &mut [u8])
    requires { ((l : List ℕ) × Joins l table.now f) × (offset < f.interval) × (place (count table.now + cycle_of table.now / f.interval) ≤ length room.old) }
    ensures { room.new ≡ table_of (cycle_of table.now) (frame_of table.now) (grants_after table.now f offset) ++ drop (place (count table.now + cycle_of table.now / f.interval)) room.old }
{
    let _ = tables::write_head(
        new_count(table, f) as u16,
        tables::cycle(table),
        tables::frame(table),
        room,
    );
    write_grants(table, f, offset, room);
}
