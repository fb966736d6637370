// The lines, each printed at a place of a room: the answer is the place behind it, whether or not it fits.
ghost use Rattle.texts.specs.Texts.{head_line, grant_line, refusal_text};
ghost use Rattle.words.specs.Places.{Prints};

use crate::form::{AT, CYCLE, FEED, FLOW, FRAME, GRANT, GRANTS, LATE, LOAD, REFUSED};
use refusals::Refusal;
use tables::Grant;
use words::{print, print_piece};

// The first line of a plan, at the room's front.
pub(crate) fn print_head(cycle: u16, frame: u16, grants: usize, load: u64, room: &mut [u8]) -> usize
    ensures { Prints room.old 0 (head_line cycle frame grants load) result room.new }
{
    let at = print_piece(&CYCLE, u64::from(cycle), room, 0);
    let at = print_piece(&FRAME, u64::from(frame), room, at);
    let at = print_piece(&GRANTS, grants as u64, room, at);
    let at = print_piece(&LOAD, load, room, at);
    print(&FEED, room, at)
}

// The line of a grant.
pub(crate) fn print_grant(g: Grant, room: &mut [u8], at: usize) -> usize
    ensures { Prints room.old at (grant_line g) result room.new }
{
    let at = print_piece(&GRANT, u64::from(g.start), room, at);
    let at = print_piece(&FLOW, u64::from(g.flow), room, at);
    let at = print_piece(&LATE, u64::from(g.late), room, at);
    print(&FEED, room, at)
}

// The line of a refusal, at the room's front.
pub(crate) fn print_refusal(r: Refusal, room: &mut [u8]) -> usize
    ensures { Prints room.old 0 (refusal_text r) result room.new }
{
    let at = print_piece(&REFUSED, u64::from(r.number()), room, 0);
    let at = print_piece(&AT, r.place() as u64, room, at);
    print(&FEED, room, at)
}
