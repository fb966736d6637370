// The head and the records of a packed table, read and written.
ghost use Rattle.std.specs.Prelude.{◌≡◌, length};
ghost use Rattle.fields.specs.declared.kind.Kind.TheVariants.{TableHead, TableRecord};
ghost use Rattle.fields.specs.Records.{values_of, stored, room_after};
ghost use Rattle.tables.specs.Tables.{head_fields, head_of, count, cycle_of, frame_of, values_at, grant_with, grant_at, fields_of, spare_at, record_stored, record_after};

use fields::{Kind, Misfit};

// A grant of a table: its flow's number, the slot that it starts at and how late that is.
#[derive(Clone, Copy)]
pub struct Grant {
    pub flow: u16,
    pub start: u16,
    pub late: u16,
}

// The grant of a record's fields.
impl From<[u16; 6]> for Grant {
    ghost from_gives = { λ values grant. grant ≡ grant_with values };

    fn from(values: [u16; 6]) -> Grant {
        Grant {
            flow: values[0],
            start: values[1],
            late: values[2],
        }
    }
}

// The fields of a grant's record.
impl From<Grant> for [u16; 6] {
    ghost from_gives = { λ grant values. values ≡ fields_of grant };

    fn from(grant: Grant) -> [u16; 6] {
        [grant.flow, grant.start, grant.late, 0, 0, 0]
    }
}

// The fields of the table's head; zeros where it has none.
#[tactic(auto, unfolding(fields::specs::Records::reading, fields::specs::Records::values_of, crate::specs::Tables::head_of))]
pub(crate) fn head_of(table: &[u8]) -> [u16; 6]
    ensures { result ≡ head_of table.now }
{
    fields::read(Kind::TableHead, table).unwrap_or([0; 6])
}

// How many records the head says.
#[tactic(auto, unfolding(crate::specs::Tables::count))]
pub fn count(table: &[u8]) -> usize
    ensures { result ≡ count table.now }
{
    usize::from(head_of(table)[3])
}

// The table's own cycle.
#[tactic(auto, unfolding(crate::specs::Tables::cycle_of))]
pub fn cycle(table: &[u8]) -> u16
    ensures { result ≡ cycle_of table.now }
{
    head_of(table)[4]
}

// The table's own frame.
#[tactic(auto, unfolding(crate::specs::Tables::frame_of))]
pub fn frame(table: &[u8]) -> u16
    ensures { result ≡ frame_of table.now }
{
    head_of(table)[5]
}

// The values of the record at the front of the bytes; zeros where they do not hold it whole.
#[tactic(auto, unfolding(fields::specs::Records::reading, fields::specs::Records::values_of))]
pub(crate) fn values_of(bytes: &[u8]) -> [u16; 6]
    ensures { result ≡ values_of TableRecord bytes.now }
{
    fields::read(Kind::TableRecord, bytes).unwrap_or([0; 6])
}

// The values of record i, counted from 0; zeros where the table has no such record.
#[tactic(auto, unfolding(fields::specs::Records::reading, fields::specs::Records::values_of, crate::specs::Tables::values_at))]
pub(crate) fn values_at(table: &[u8], i: usize) -> [u16; 6]
    ensures { result ≡ values_at table.now i }
{
    fields::read_at(Kind::TableRecord, table, i).unwrap_or([0; 6])
}

// The grant of record i, counted from 0; zeros where the table has no such record.
#[tactic(auto, unfolding(crate::specs::Tables::grant_at))]
pub fn grant_at(table: &[u8], i: usize) -> Grant
    ensures { result ≡ grant_at table.now i }
{
    values_at(table, i).into()
}

// The spare bits of record i, counted from 0.
#[tactic(auto, unfolding(crate::specs::Tables::spare_at))]
pub(crate) fn spare_at(table: &[u8], i: usize) -> u16
    ensures { result ≡ spare_at table.now i }
{
    values_at(table, i)[3]
}

// Puts the head of a table of n records at the room's front; the rest stays, and all of it where the answer is not `Ok`.
pub fn write_head(n: u16, cycle: u16, frame: u16, room: &mut [u8]) -> Result<(), Misfit>
    ensures value { result ≡ stored TableHead (head_fields n cycle frame) (length room.old) }
    ensures room_after { room.new ≡ room_after TableHead (head_fields n cycle frame) room.old }
{
    fields::write(Kind::TableHead, [1, 2, 0, n, cycle, frame], room)
}

// Puts the grant into the room as record i of a table; the rest stays, and all of it where the answer is not `Ok`.
#[tactic(auto, unfolding(crate::specs::Tables::record_stored, crate::specs::Tables::record_after))]
pub fn write_record(g: Grant, i: usize, room: &mut [u8]) -> Result<(), Misfit>
    ensures value { result ≡ record_stored g i (length room.old) }
    ensures room_after { room.new ≡ record_after g i room.old }
{
    fields::write_at(Kind::TableRecord, g.into(), i, room)
}
