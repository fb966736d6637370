// The head and the records of a packed list, read and written.
ghost use Rattle.std.specs.Prelude.{◌≡◌, ◌<◌, length};
ghost use Rattle.fields.specs.declared.kind.Kind.TheVariants.{ListHead};
ghost use Rattle.fields.specs.Records.{stored, room_after};
ghost use Rattle.lists.specs.Lists.{head_of, count, flow_at, head_fields, record_stored, record_after};

use fields::{Kind, Misfit};
use flows::Flow;

// The fields of the list's head; zeros where it has none.
#[tactic(auto, unfolding(fields::specs::Records::reading, fields::specs::Records::values_of, crate::specs::Lists::head_of))]
pub fn head_of(list: &[u8]) -> [u16; 6]
    ensures { result ≡ head_of list.now }
{
    fields::read(Kind::ListHead, list).unwrap_or([0; 6])
}

// How many records the head says.
#[tactic(auto, unfolding(crate::specs::Lists::count))]
pub fn count(list: &[u8]) -> usize
    ensures { (result ≡ count list.now) × (result < 65536) }
{
    usize::from(head_of(list)[3])
}

// The flow of record i, counted from 0; zeros where the list has no such record. Its fields are handed on one by one: copied whole,
// they are packed into one number, which every reader takes apart again.
#[tactic(auto, unfolding(fields::specs::Records::reading, fields::specs::Records::values_of, flows::specs::Flows::flow_of, crate::specs::Lists::flow_at))]
pub fn flow_at(list: &[u8], i: usize) -> Flow
    ensures { result ≡ flow_at list.now i }
{
    match fields::read_at(Kind::ListRecord, list, i) {
        Some(values) => Flow {
            ..Flow::from(values)
        },
        None => Flow::NONE,
    }
}

// Puts the head of a list of n records at the room's front; the rest stays, and all of it where the answer is not `Ok`.
pub fn write_head(n: u16, room: &mut [u8]) -> Result<(), Misfit>
    ensures value { result ≡ stored ListHead (head_fields n) (length room.old) }
    ensures room_after { room.new ≡ room_after ListHead (head_fields n) room.old }
{
    fields::write(Kind::ListHead, [1, 1, 0, n, 0, 0], room)
}

// Puts the flow into the room as record i of a list; the rest stays, and all of it where the answer is not `Ok`.
#[tactic(auto, unfolding(crate::specs::Lists::record_stored, crate::specs::Lists::record_after))]
pub fn write_record(f: Flow, i: usize, room: &mut [u8]) -> Result<(), Misfit>
    ensures value { result ≡ record_stored f i (length room.old) }
    ensures room_after { room.new ≡ record_after f i room.old }
{
    fields::write_at(Kind::ListRecord, f.into(), i, room)
}
