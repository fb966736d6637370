// Records read and written: at the front of a slice, or one of many behind a head.
ghost use Rattle.std.specs.Prelude.{◌≡◌, length};
ghost use Rattle.fields.specs.Records.{reading, reading_at, stored, stored_at, room_after, room_after_at};

use crate::bits;
use crate::kind::Kind;

// Why a record is not written: the room is too short for it, or a value is too wide for its field.
#[derive(Clone, Copy)]
pub enum Misfit {
    Short,
    Wide,
}

// The values of the record at the slice's front, in order with zeros behind them; nothing where the slice does not hold it
// whole.
#[inline(always)]
pub fn read(kind: Kind, s: &[u8]) -> Option<[u16; 6]>
    ensures { result ≡ reading kind s.now }
{
    let record = s.get(..kind.bytes())?;
    let n = bits::number(record);
    Some(bits::values(n, kind.widths()))
}

// The values of record i, counted from 0, of bytes that begin with a head; nothing where they do not hold it whole.
#[inline(always)]
pub fn read_at(kind: Kind, bytes: &[u8], i: usize) -> Option<[u16; 6]>
    ensures { result ≡ reading_at kind bytes.now i }
{
    let place = kind.place(i)?;
    read(kind, bytes.get(place)?)
}

// Puts the record at the room's front; the rest stays, and all of it where the answer is not `Ok`.
#[inline(always)]
pub fn write(kind: Kind, values: [u16; 6], room: &mut [u8]) -> Result<(), Misfit>
    ensures value { result ≡ stored kind values (length room.old) }
    ensures room_after { room.new ≡ room_after kind values room.old }
{
    let size = kind.bytes();
    if room.len() < size {
        return Err(Misfit::Short);
    }
    let widths = kind.widths();
    if !bits::all_fit(values, widths) {
        return Err(Misfit::Wide);
    }
    let n = bits::joined(values, widths);
    bits::put(n, &mut room[..size]);
    Ok(())
}

// Puts the record into the room as record i behind a head, counted from 0; the rest stays, and all of it where the answer is not
// `Ok`.
#[inline(always)]
pub fn write_at(kind: Kind, values: [u16; 6], i: usize, room: &mut [u8]) -> Result<(), Misfit>
    ensures value { result ≡ stored_at kind values i (length room.old) }
    ensures room_after { room.new ≡ room_after_at kind values i room.old }
{
    match kind.place(i) {
        Some(place) if place.end <= room.len() => write(kind, values, &mut room[place]),
        _ => Err(Misfit::Short),
    }
}
