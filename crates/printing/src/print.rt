// List to sheet.
ghost use Rattle.std.specs.Prelude.{◌≡◌, ◌<◌, length};
ghost use Rattle.lists.specs.Lists.{flows_of};
ghost use Rattle.sheets.specs.Texts.{line, text};
ghost use Rattle.sheets.specs.Answers.{sheet_answer, sheet_room};
ghost use Rattle.words.specs.Places.{Prints};

use flows::Flow;
use refusals::{Refusal, unless};
use sheets::{EVERY, FEED, FLOW, JITTER, SIZE};
use words::{print, print_piece};

// Prints the line of a flow at a place of the room and answers the place behind it, whether or not it fits. It is printed at the
// front of what the room has from there on, so that the places within a line are small numbers.
#[inline(always)]
fn print_line(f: Flow, room: &mut [u8], at: usize) -> usize
    requires { (f.number < 10000) × (f.size < 10000) × (f.interval < 10000) × (f.jitter < 10000) }
    ensures { Prints room.old at (line f) result room.new }
{
    let start = at.min(room.len());
    let line = &mut room[start..];
    let end = print_piece(&FLOW, u64::from(f.number), line, 0);
    let end = print_piece(&SIZE, u64::from(f.size), line, end);
    let end = print_piece(&EVERY, u64::from(f.interval), line, end);
    let end = print_piece(&JITTER, u64::from(f.jitter), line, end);
    let size = print(&FEED, line, end);
    at.saturating_add(size)
}

// Prints the lines of a list's flows at the room's front and answers how many bytes they are, whether or not they fit. Inlined, so
// that printing into a room of no bytes only adds lengths.
#[inline(always)]
fn print_lines(list: &[u8], room: &mut [u8]) -> usize
    ensures { Prints room.old 0 (text (flows_of list.now)) result room.new }
{
    let mut at = 0;
    for i in 0..lists::count(list) {
        at = print_line(lists::flow_at(list, i), room, at);
    }
    at
}

// List to sheet: tests 1 to 4 and 9, and the sheet at the room's front.
pub fn sheet_from_list(list: &[u8], room: &mut [u8]) -> Result<usize, Refusal>
    ensures value { result ≡ sheet_answer list.now (length room.old) }
    ensures room_after { room.new ≡ sheet_room list.now room.old }
{
    accepting::tests_1_to_4(list)?;
    let size = print_lines(list, &mut []);
    unless(size <= room.len(), Refusal::Room)?;
    Ok(print_lines(list, room))
}
