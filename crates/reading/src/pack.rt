// Sheet to list.
ghost use Rattle.std.specs.Prelude.{◌≡◌, length};
ghost use Rattle.sheets.specs.Answers.{list_answer, room_of_list};

use crate::survey::survey_of;
use refusals::Refusal;

// Sheet to list: tests 20, 3, 4 and 9, and the list at the room's front. The records, at most 128 of 6 bytes, wait behind the
// head's 4 bytes in a list of their own until all tests have passed.
pub fn list_from_sheet(sheet: &[u8], room: &mut [u8]) -> Result<usize, Refusal>
    ensures value { result ≡ list_answer sheet.now (length room.old) }
    ensures room_after { room.new ≡ room_of_list sheet.now room.old }
{
    let mut list = [0u8; 772];
    let n = survey_of(sheet, &mut list)?;
    let size = 4 + 6 * n;
    if room.len() < size {
        return Err(Refusal::Room);
    }
    let _ = lists::write_head(n as u16, room);
    words::put(&list[4..size], room, 4);
    Ok(size)
}
