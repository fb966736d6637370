// A text printed into a room, one piece behind the other. Printed into a room of no bytes it is measured.
ghost use Rattle.std.specs.Prelude.{◌≡◌, ◌+◌, ◌-◌, ◌^◌, ◌++◌, min, length};
ghost use Rattle.words.specs.Whole.{numeral};
ghost use Rattle.words.specs.Places.{Prints, put_at};

use crate::decimal::{figures, put_digits};
use crate::word::put;

// Prints a word at a place of the room, where it fits, and answers the place behind it, whether or not it fits; the rest stays.
pub fn print(w: &[u8], room: &mut [u8], at: usize) -> usize
    ensures printed { Prints room.old at w.now result room.new }
    ensures room_after { room.new ≡ put_at room.old at w.now }
{
    put(w, room, at);
    at.saturating_add(w.len())
}

// Prints a word and the number behind it, each likewise.
pub fn print_piece(w: &[u8], v: u64, room: &mut [u8], at: usize) -> usize
    ensures printed { Prints room.old at (w.now ++ numeral v) result room.new }
    ensures room_after { room.new ≡ put_at (put_at room.old at w.now) (min (at + length w.now) (2 ^ 64 - 1)) (numeral v) }
{
    let end = print(w, room, at);
    let k = figures(v);
    put_digits(v, k, room, end);
    end.saturating_add(k)
}
