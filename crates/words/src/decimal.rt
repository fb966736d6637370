// A number in decimal, written.
ghost use Rattle.std.specs.Prelude.{◌≡◌, length};
ghost use Rattle.words.specs.Decimals.{width, digits, decimal};
ghost use Rattle.words.specs.Places.{behind, put_at};
ghost use Rattle.words.specs.Whole.{figures, numeral};

use crate::word::fits;

// How many digits a number below 10,000 has.
#[tactic(auto, unfolding(crate::specs::Decimals::width))]
pub fn width(v: u16) -> usize
    ensures { result ≡ width v }
{
    match v {
        0..=9 => 1,
        10..=99 => 2,
        100..=999 => 3,
        _ => 4,
    }
}

// How many digits a number has. Nearly all are below 10,000, and those are told by comparing.
pub(crate) fn figures(v: u64) -> usize
    ensures { result ≡ figures v }
{
    if v < 10000 {
        width(v as u16)
    } else {
        v.ilog10() as usize + 1
    }
}

// Writes the last k digits of a number at a place of the room and answers the place behind them; the rest stays. Where they do
// not fit all of the room stays, and the answer is the place itself.
pub(crate) fn put_digits(v: u64, k: usize, room: &mut [u8], at: usize) -> usize
    ensures value { result ≡ behind at (digits k v) (length room.old) }
    ensures room_after { room.new ≡ put_at room.old at (digits k v) }
{
    if !fits(at, k, room.len()) {
        return at;
    }
    let mut left = v;
    for j in (0..k).rev() {
        room[at + j] = b'0' + (left % 10) as u8;
        left /= 10;
    }
    at + k
}

// Writes a number below 10,000 in decimal, likewise; of a larger one its last four digits.
pub fn put_number(v: u16, room: &mut [u8], at: usize) -> usize
    ensures value { result ≡ behind at (decimal v) (length room.old) }
    ensures room_after { room.new ≡ put_at room.old at (decimal v) }
{
    put_digits(u64::from(v), width(v), room, at)
}

// Writes a number of any size in decimal, likewise.
pub fn put_numeral(v: u64, room: &mut [u8], at: usize) -> usize
    ensures value { result ≡ behind at (numeral v) (length room.old) }
    ensures room_after { room.new ≡ put_at room.old at (numeral v) }
{
    put_digits(v, figures(v), room, at)
}
