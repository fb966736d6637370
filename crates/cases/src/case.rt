// A case: read from the stream whole, and answered. That it is broken is told only when all its numbers have been read: of a plain
// number that is missing, where the stream goes on behind it, the case has one that is larger than any.
use crate::answers;
use crate::stream::{Fault, fill, length, number, string};
use refusals::Refusal;
use std::io;
use std::io::{Read, Write};

// A plain number of a case; larger than any where it is missing.
fn plain(number: Option<u32>) -> u64 {
    number.map_or(u64::MAX, u64::from)
}

// Reads a byte string and the length of a room, and answers an operation that writes.
fn written<R: Read, W: Write, F: FnOnce(&[u8], &mut [u8]) -> Result<usize, Refusal>>(
    from: &mut R,
    to: &mut W,
    name: &str,
    operation: F,
    input: &mut [u8],
    room: &mut [u8],
) -> Result<(), Fault>
    requires { F.IsAlwaysCallable operation }
{
    let input_length = string(from, input)?;
    let room_length = length(from, room)?;
    let n = input_length.ok_or(Fault::Broken)?;
    let k = room_length.ok_or(Fault::Broken)?;
    let answer = operation(&input[..n], &mut room[..k]);
    answers::made(to, name, answer, &room[..k])?;
    Ok(())
}

// Reads a list and a table, and answers the check.
fn checked<R: Read, W: Write>(
    from: &mut R,
    to: &mut W,
    list: &mut [u8],
    table: &mut [u8],
) -> Result<(), Fault> {
    let list_length = string(from, list)?;
    let table_length = string(from, table)?;
    let n = list_length.ok_or(Fault::Broken)?;
    let k = table_length.ok_or(Fault::Broken)?;
    answers::check(to, &list[..n], &table[..k])?;
    Ok(())
}

// Reads a table and the ends of a window, and answers it.
fn windowed<R: Read, W: Write>(from: &mut R, to: &mut W, table: &mut [u8]) -> Result<(), Fault> {
    let table_length = string(from, table)?;
    let low = number(from)?;
    let high = number(from)?;
    let n = table_length.ok_or(Fault::Broken)?;
    let b = high.ok_or(Fault::Broken)?;
    answers::window(to, &table[..n], plain(low), u64::from(b))?;
    Ok(())
}

// Reads a list, a table, the four numbers of a flow and the lengths of both rooms, and answers live add.
fn added<R: Read, W: Write>(
    from: &mut R,
    to: &mut W,
    list: &mut [u8],
    list_room: &mut [u8],
) -> Result<(), Fault> {
    let mut table = [0u8; 32768];
    let mut table_room = [0xA5u8; 32768];
    let list_length = string(from, list)?;
    let table_length = string(from, &mut table)?;
    let flow_number = number(from)?;
    let size = number(from)?;
    let interval = number(from)?;
    let jitter = number(from)?;
    let list_room_length = length(from, list_room)?;
    let table_room_length = length(from, &table_room)?;
    let n = list_length.ok_or(Fault::Broken)?;
    let k = table_length.ok_or(Fault::Broken)?;
    let a = list_room_length.ok_or(Fault::Broken)?;
    let b = table_room_length.ok_or(Fault::Broken)?;
    answers::add(
        to,
        &list[..n],
        &table[..k],
        plain(flow_number),
        plain(size),
        plain(interval),
        plain(jitter),
        &mut list_room[..a],
        &mut table_room[..b],
    )?;
    Ok(())
}

// Reads modem settings, a slot length in microseconds, the bytes in a slot and the length of a room, and answers settings to list.
fn converted<R: Read, W: Write>(
    from: &mut R,
    to: &mut W,
    settings: &mut [u8],
    room: &mut [u8],
) -> Result<(), Fault> {
    let settings_length = string(from, settings)?;
    let slot_microseconds = number(from)?;
    let slot_bytes = number(from)?;
    let room_length = length(from, room)?;
    let n = settings_length.ok_or(Fault::Broken)?;
    let microseconds = plain(slot_microseconds);
    let bytes = plain(slot_bytes);
    let k = room_length.ok_or(Fault::Broken)?;
    let room = &mut room[..k];
    let answer = converting::list_from_settings(&settings[..n], microseconds, bytes, room);
    answers::made(to, "settings", answer, room)?;
    Ok(())
}

// Reads a list, a base and the length of a room, and answers rounding.
fn rounded<R: Read, W: Write>(
    from: &mut R,
    to: &mut W,
    list: &mut [u8],
    room: &mut [u8],
) -> Result<(), Fault> {
    let list_length = string(from, list)?;
    let base = number(from)?;
    let room_length = length(from, room)?;
    let n = list_length.ok_or(Fault::Broken)?;
    let base = plain(base);
    let k = room_length.ok_or(Fault::Broken)?;
    let room = &mut room[..k];
    let answer = rounding::round_list(&list[..n], base, room);
    answers::made(to, "round", answer, room)?;
    Ok(())
}

// Answers the case of the operation that a byte names: sheet to list (1), list to sheet (2), check (4), window (5), live add (6),
// modem settings to list (7), rounding (8); any other byte asks for a plan.
fn case<R: Read, W: Write>(from: &mut R, to: &mut W, code: u8) -> Result<(), Fault> {
    let mut input = [0u8; 65536];
    let mut room = [0xA5u8; 32768];
    match code {
        1 => written(
            from,
            to,
            "pack",
            |sheet, room| reading::list_from_sheet(sheet, room),
            &mut input,
            &mut room,
        ),
        2 => written(
            from,
            to,
            "write",
            |list, room| printing::sheet_from_list(list, room),
            &mut input,
            &mut room,
        ),
        4 => checked(from, to, &mut input, &mut room),
        5 => windowed(from, to, &mut input),
        6 => added(from, to, &mut input, &mut room),
        7 => converted(from, to, &mut input, &mut room),
        8 => rounded(from, to, &mut input, &mut room),
        _ => written(
            from,
            to,
            "plan",
            |list, room| planner::plan(list, room),
            &mut input,
            &mut room,
        ),
    }
}

// Answers the next case, and whether to go on: the stream ends between two cases, or with one that is broken.
pub fn answer<R: Read, W: Write>(from: &mut R, to: &mut W) -> io::Result<bool> {
    let mut code = [0u8; 1];
    if !fill(from, &mut code)? {
        return Ok(false);
    }
    match case(from, to, code[0]) {
        Ok(()) => Ok(true),
        Err(Fault::Io(e)) => Err(e),
        Err(Fault::Broken) => {
            to.write_all(b"broken case\n")?;
            Ok(false)
        }
    }
}
