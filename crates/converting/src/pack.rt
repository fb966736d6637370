// Modem settings to a list.
ghost use Rattle.std.specs.Prelude.{◌≡◌, length};
ghost use Rattle.refusals.specs.Answers.{answer, written};
ghost use Rattle.lists.specs.Lists.{flows_of};
ghost use Rattle.pairing.specs.Parts.{pair_tests};
ghost use Rattle.settings.specs.Slots.{channel};
ghost use Rattle.settings.specs.Tests.{settings_answer, settings_room};

use crate::slots::Slot;
use crate::survey::survey_of;
use pairing::{BITS, pair_tests};
use refusals::{Refusal, unless};

// The bytes of the longest list: a head of 4, and 128 records of 6.
const LONGEST: usize = 4 + 6 * 128;

// Tests 5, 6 and 9 of a list, and the list at the room's front.
#[tactic(auto, unfolding(refusals::specs::Answers::answer, refusals::specs::Answers::written), using(words::proofs::Places::put_front))]
fn test_and_put(list: &[u8], room: &mut [u8]) -> Result<usize, Refusal>
    ensures value { result ≡ answer (pair_tests (flows_of list.now)) list.now (length room.old) }
    ensures room_after { room.new ≡ written (pair_tests (flows_of list.now)) list.now room.old }
{
    let mut bits = [0u8; BITS];
    pair_tests(list, &mut bits)?;
    let size = list.len();
    unless(size <= room.len(), Refusal::Room)?;
    words::put(list, room, 0);
    Ok(size)
}

// Modem settings to a list: tests 26, 23 to 25, 3 to 6 and 9, and the list at the room's front. The list, at most 128 records of 6
// bytes behind a head of 4, waits in an array of its own until all tests have passed.
#[tactic(auto, using(crate::proofs::Packing::channel_refused, crate::proofs::Packing::survey_refused, crate::proofs::Packing::survey_flows), unfolding(refusals::specs::Answers::answer, refusals::specs::Answers::written))]
pub fn list_from_settings(
    settings: &[u8],
    slot_microseconds: u64,
    slot_bytes: u64,
    room: &mut [u8],
) -> Result<usize, Refusal>
    ensures value { result ≡ settings_answer (channel slot_microseconds slot_bytes) settings.now (length room.old) }
    ensures room_after { room.new ≡ settings_room (channel slot_microseconds slot_bytes) settings.now room.old }
{
    let slot = Slot::new(slot_microseconds, slot_bytes)?;
    let mut list = [0u8; LONGEST];
    let n = survey_of(settings, slot, &mut list)?;
    let _ = lists::write_head(n as u16, &mut list);
    test_and_put(&list[..4 + 6 * n], room)
}
