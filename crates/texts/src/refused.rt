// The text of a refusal.
ghost use Rattle.std.specs.Prelude.{◌≡◌, length};
ghost use Rattle.refusals.specs.Results.{Passed};
ghost use Rattle.refusals.specs.Answers.{answer, written};
ghost use Rattle.texts.specs.Texts.{refusal_text};

use crate::line::print_refusal;
use refusals::{Refusal, unless};

// The line of a refusal at the room's front, or the refusal of a room that is too short.
pub fn refusal_text(r: Refusal, room: &mut [u8]) -> Result<usize, Refusal>
    ensures value { result ≡ answer Passed (refusal_text r) (length room.old) }
    ensures room_after { room.new ≡ written Passed (refusal_text r) room.old }
{
    let size = print_refusal(r, &mut []);
    unless(size <= room.len(), Refusal::Room)?;
    Ok(print_refusal(r, room))
}
