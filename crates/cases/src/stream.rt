// The stream of cases.
ghost use Rattle.std.specs.Prelude.{◌≤◌, length, IfOk, IfSome};

use std::io;
use std::io::{ErrorKind, Read};

// Why a case is not answered: reading or writing fails, or the stream stops inside the case or asks for more than there is.
#[derive(Debug, Drop)]
pub enum Fault {
    Io(io::Error),
    Broken,
}

impl From<io::Error> for Fault {
    fn from(e: io::Error) -> Fault {
        Fault::Io(e)
    }
}

// Fills the room, and answers whether the stream has so much.
pub fn fill<R: Read>(from: &mut R, room: &mut [u8]) -> io::Result<bool> {
    match from.read_exact(room) {
        Ok(()) => Ok(true),
        Err(e) if e.kind() == ErrorKind::UnexpectedEof => Ok(false),
        Err(e) => Err(e),
    }
}

// Four bytes of the stream as a number, most significant first; nothing where the stream stops.
pub fn number<R: Read>(from: &mut R) -> io::Result<Option<u32>> {
    let mut bytes = [0u8; 4];
    let whole = fill(from, &mut bytes)?;
    Ok(whole.then_some(u32::from_be_bytes(bytes)))
}

// A number of the stream as a length; nothing where it is over that of the room, or the stream stops.
pub fn length<R: Read>(from: &mut R, room: &[u8]) -> io::Result<Option<usize>>
    ensures { IfOk result (λ found. IfSome found (λ n. n ≤ length room.now)) }
{
    match number(from)? {
        Some(n) if n as usize <= room.len() => Ok(Some(n as usize)),
        _ => Ok(None),
    }
}

// Reads a byte string into the front of the room, and answers its length; nothing where the room is too short, and then no byte of
// the string is read, or the stream stops.
pub fn string<R: Read>(from: &mut R, room: &mut [u8]) -> io::Result<Option<usize>>
    ensures { IfOk result (λ found. IfSome found (λ n. n ≤ length room.new)) }
{
    let Some(n) = length(from, room)? else {
        return Ok(None);
    };
    let whole = fill(from, &mut room[..n])?;
    Ok(whole.then_some(n))
}
