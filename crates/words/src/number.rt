// A number in a text, read.
ghost use Rattle.std.specs.Prelude.{◌≡◌, ◌≤◌, length, take};
ghost use Rattle.words.specs.Numerals.{value};
ghost use Rattle.words.specs.Numbers.{run, formed, number_at, number_after};

use crate::word::begins;

// The digits are 1 to 4, with no leading zero except "0" itself.
fn formed(digits: &[u8]) -> bool
    ensures { result ≡ formed digits.now }
{
    match digits {
        [] => false,
        [_] => true,
        [b'0', ..] => false,
        _ => digits.len() <= 4,
    }
}

// The digits that the text, of at most five bytes, begins with: the number that they make, and how many they are.
fn digits(s: &[u8]) -> (u32, usize)
    requires { length s.now ≤ 5 }
    ensures number { result.0 ≡ value 0 (take (run s.now) s.now) }
    ensures count { result.1 ≡ run s.now }
{
    let mut v = 0;
    let mut n = 0;
    for b in s {
        if !b.is_ascii_digit() {
            return (v, n);
        }
        v = v * 10 + u32::from(*b - b'0');
        n += 1;
    }
    (v, n)
}

// The number that stands at a place of the text, and the place behind it. A fifth digit is too many already, so no byte behind it is
// looked at.
fn number_at(s: &[u8], at: usize) -> Option<(u16, usize)>
    requires { at ≤ length s.now }
    ensures { result ≡ number_at at s.now }
{
    let rest = &s[at..];
    let (v, n) = digits(&rest[..rest.len().min(5)]);
    let end = at + n;
    if !formed(&s[at..end]) {
        return None;
    }
    Some((v as u16, end))
}

// The number behind a word that stands at a place of the text, and the place behind it. Inlined, so that a word of constant length
// costs a compare or two.
#[inline]
pub fn number_after(s: &[u8], at: usize, w: &[u8]) -> Option<(u16, usize)>
    ensures { result ≡ number_after at w.now s.now }
{
    if !begins(s.get(at..)?, w) {
        return None;
    }
    number_at(s, at + w.len())
}
