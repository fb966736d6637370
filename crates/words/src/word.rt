// A word at the front of a text, and one written at a place of a room.
ghost use Rattle.std.specs.Prelude.{◌≡◌, ◌+◌, ◌≤◌, length};
ghost use Rattle.words.specs.Words.{starts};
ghost use Rattle.words.specs.Places.{within, behind, put_at};

// The text begins with the word.
pub fn begins(s: &[u8], w: &[u8]) -> bool
    ensures { result ≡ starts w.now s.now }
{
    s.starts_with(w)
}

// From a place on, k bytes are within n.
#[tactic(auto, unfolding(crate::specs::Places::within))]
pub(crate) fn fits(at: usize, k: usize, n: usize) -> bool
    ensures { result ≡ within at k n }
{
    match at.checked_add(k) {
        Some(end) => end <= n,
        None => false,
    }
}

// Writes a word at a place of the room and answers the place behind it; the rest stays. Where it does not fit all of the room
// stays, and the answer is the place itself.
pub fn put(w: &[u8], room: &mut [u8], at: usize) -> usize
    ensures value { result ≡ behind at w.now (length room.old) }
    ensures room_after { room.new ≡ put_at room.old at w.now }
{
    if !fits(at, w.len(), room.len()) {
        return at;
    }
    let mut end = at;
    for byte in w {
        room[end] = *byte;
        end += 1;
    }
    end
}
