// Reads a sheet of at most 65,536 bytes on standard input and prints its plan, or the line of its refusal.
#![tactic(auto)]

mod input;

ghost use Rattle.std.specs.Prelude.{◌≡◌, length, OnOk, IfSome, Ok};
ghost use Rattle.std.specs.Io.KnownBytes.{Appends};
ghost use Rattle.refusals.specs.Results.{Passed};
ghost use Rattle.refusals.specs.Answers.{answer, written};
ghost use Rattle.plan.specs.Printed.{list_text, sheet_text, input_text};

use refusals::Refusal;
use std::io;
use std::io::{Read, Write};

// Plans a list: the text of the plan or of its refusal at the room's front, or the refusal of a room that is too short.
fn list_text(list: &[u8], room: &mut [u8]) -> Result<usize, Refusal>
    ensures value { result ≡ answer Passed (list_text list.now) (length room.old) }
    ensures room_after { room.new ≡ written Passed (list_text list.now) room.old }
{
    let mut table = [0u8; 5128];
    match planner::plan(list, &mut table) {
        Ok(k) => texts::plan_text(list, &table[..k], room),
        Err(r) => texts::refusal_text(r, room),
    }
}

// Plans a sheet: the text of the plan or of its refusal at the room's front, or the refusal of a room that is too short.
fn sheet_text(sheet: &[u8], room: &mut [u8]) -> Result<usize, Refusal>
    ensures value { result ≡ answer Passed (sheet_text sheet.now) (length room.old) }
    ensures room_after { room.new ≡ written Passed (sheet_text sheet.now) room.old }
{
    let mut list = [0u8; 772];
    match reading::list_from_sheet(sheet, &mut list) {
        Ok(k) => list_text(&list[..k], room),
        Err(r) => texts::refusal_text(r, room),
    }
}

// Reads a sheet and writes its text, or the one line that it is too long.
fn print_plan<R: Read, W: Write>(from: &mut R, to: &mut W) -> io::Result<()>
    ensures { OnOk result (IfSome (R.remaining from.old) (λ s. Appends (W.contents to.old) (W.contents to.new) (input_text s))) }
{
    let mut sheet = [0u8; 65537];
    let n = input::read_full(from, &mut sheet)?;
    if 65536 < n {
        return to.write_all(b"sheet too long\n");
    }
    let mut room = [0u8; 32768];
    match sheet_text(&sheet[..n], &mut room) {
        Ok(k) => to.write_all(&room[..k]),
        Err(_) => Ok(()),
    }
}

fn main(rt: HostRuntime) -> io::Result<()> {
    print_plan(&mut rt.stdin(), &mut rt.stdout())
}
