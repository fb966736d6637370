// Live add: its tests in their order, then the new list and the new table.
ghost use Rattle.std.specs.Prelude.{◌≡◌, length};
ghost use Rattle.flows.specs.Flows.{new_flow};
ghost use Rattle.offsets.specs.Adding.{add_answer, room_of_list, room_of_table};

use crate::search::first_offset;
use crate::tests::{later_tests, new_record};
use crate::writing::{write_list, write_table};
use finding::Index;
use refusals::Refusal;

// Adds one flow, given by four plain numbers, to a list and a table that passes: the smallest offset at which it fits, the new list
// and the new table at the rooms' fronts, the rest as it was; or the first refusal, and both rooms as they were.
pub fn live_add(
    list: &[u8],
    table: &[u8],
    number: u64,
    size: u64,
    interval: u64,
    jitter: u64,
    list_room: &mut [u8],
    table_room: &mut [u8],
) -> Result<usize, Refusal>
    ensures value { result ≡ add_answer list.now table.now (new_flow number size interval jitter) (length list_room.old) (length table_room.old) }
    ensures list_room_after { list_room.new ≡ room_of_list list.now table.now (new_flow number size interval jitter) list_room.old (length table_room.old) }
    ensures table_room_after { table_room.new ≡ room_of_table list.now table.now (new_flow number size interval jitter) (length list_room.old) table_room.old }
{
    let mut index = Index::EMPTY;
    checking::check_and_index(list, table, &mut index)?;
    let flow = new_record(list, number, size, interval, jitter)?;
    later_tests(list, table, flow, list_room.len(), table_room.len())?;
    let offset = first_offset(list, &index, table, flow).ok_or(Refusal::NoOffset)?;
    write_list(list, flow, list_room);
    write_table(table, flow, offset, table_room);
    Ok(usize::from(offset))
}
