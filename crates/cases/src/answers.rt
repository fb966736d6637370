// The line of each operation's answer.
ghost use Rattle.std.specs.Prelude.{◌≡◌};
ghost use Rattle.lists.specs.Lists.{count, place};
ghost use Rattle.tables.specs.Tables.{count as table_count, place as table_place};

use crate::sum::adler;
use refusals::Refusal;
use std::io;
use std::io::Write;

// The operation's name, and the refusal and its place, or two zeros.
fn outcome<W: Write>(to: &mut W, name: &str, answer: Result<(), Refusal>) -> io::Result<()> {
    to.write_all(name.as_bytes())?;
    match answer {
        Ok(()) => to.write_all(b" 0 0"),
        Err(r) => write!(to, " {} {}", r.number(), r.place()),
    }
}

// The bytes written, and the sum of the whole room.
fn filled<W: Write>(to: &mut W, bytes: usize, room: &[u8]) -> io::Result<()> {
    let sum = adler(room);
    write!(to, " {bytes} {sum}")
}

// The answer of an operation that writes: refusal and place, the bytes written, and the sum of the whole room.
pub fn made<W: Write>(
    to: &mut W,
    name: &str,
    answer: Result<usize, Refusal>,
    room: &[u8],
) -> io::Result<()> {
    outcome(to, name, answer.map(|_| ()))?;
    filled(to, answer.unwrap_or(0), room)?;
    to.write_all(b"\n")
}

// The check: refusal and place.
pub fn check<W: Write>(to: &mut W, list: &[u8], table: &[u8]) -> io::Result<()> {
    outcome(to, "check", checking::check(list, table))?;
    to.write_all(b"\n")
}

// A window: refusal and place, where the stretch starts and how many bytes it has.
pub fn window<W: Write>(to: &mut W, table: &[u8], a: u64, b: u64) -> io::Result<()> {
    let bytes = windows::window(table, a, b).len();
    let (answer, first) = match windows::edges_of(table, a, b) {
        Ok(edges) => (Ok(()), edges.start),
        Err(r) => (Err(r), 0),
    };
    outcome(to, "window", answer)?;
    write!(to, " {first} {bytes}\n")
}

// The bytes of the list at the room's front, as its head says.
fn list_bytes(room: &[u8]) -> usize
    ensures { result ≡ place (count room.now) }
{
    4 + 6 * lists::count(room)
}

// The bytes of the table at the room's front, as its head says.
fn table_bytes(room: &[u8]) -> usize
    ensures { result ≡ table_place (table_count room.now) }
{
    8 + 5 * tables::count(room)
}

// Live add: refusal and place, the offset found, and of each room the bytes written and the sum of the whole.
pub fn add<W: Write>(
    to: &mut W,
    list: &[u8],
    table: &[u8],
    number: u64,
    size: u64,
    interval: u64,
    jitter: u64,
    list_room: &mut [u8],
    table_room: &mut [u8],
) -> io::Result<()> {
    let answer = adding::live_add(
        list, table, number, size, interval, jitter, list_room, table_room,
    );
    outcome(to, "add", answer.map(|_| ()))?;
    let offset = answer.unwrap_or(0);
    write!(to, " {offset}")?;
    match answer {
        Ok(_) => {
            filled(to, list_bytes(list_room), list_room)?;
            filled(to, table_bytes(table_room), table_room)?;
        }
        Err(_) => {
            filled(to, 0, list_room)?;
            filled(to, 0, table_room)?;
        }
    }
    to.write_all(b"\n")
}
