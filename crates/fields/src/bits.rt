// Bytes and fields as the digits of one number. Both ways walk a record's widths.
ghost use Rattle.std.specs.Prelude.{◌≡◌, ◌≤◌, length};
ghost use Rattle.fields.specs.Packed.{join, split, eights, Fit, Narrow, fits};

// The number that the bytes make.
#[inline(always)]
pub(crate) fn number(s: &[u8]) -> u64
    requires { length s.now ≤ 8 }
    ensures { result ≡ join (eights (length s.now)) s.now }
{
    let mut n: u64 = 0;
    for b in s {
        n = n * 256 + u64::from(*b);
    }
    n
}

// The values of the fields that make the number, taken off from the last.
#[inline(always)]
pub(crate) fn values(n: u64, widths: [u8; 6]) -> [u16; 6]
    requires { Narrow widths }
    ensures { result ≡ split widths n }
{
    let mut values = [0; 6];
    let mut left = n;
    for k in (0..6).rev() {
        let width = widths[k];
        values[k] = (left % (1 << width)) as u16;
        left >>= width;
    }
    values
}

// Every value fits its width.
#[inline(always)]
pub(crate) fn all_fit(values: [u16; 6], widths: [u8; 6]) -> bool
    requires { Narrow widths }
    ensures { result ≡ fits widths values }
{
    for (w, v) in widths.iter().zip(&values) {
        let limit = 1u64 << *w;
        if limit <= u64::from(*v) {
            return false;
        }
    }
    true
}

// The number that the values make.
#[inline(always)]
pub(crate) fn joined(values: [u16; 6], widths: [u8; 6]) -> u64
    requires narrow { Narrow widths }
    requires fit { Fit widths values }
    ensures { result ≡ join widths values }
{
    let mut n: u64 = 0;
    for (w, v) in widths.iter().zip(&values) {
        n = (n << *w) + u64::from(*v);
    }
    n
}

// Fills the room with the last bytes of the number.
#[inline(always)]
pub(crate) fn put(n: u64, out: &mut [u8])
    ensures { out.new ≡ split (eights (length out.old)) n }
{
    let mut left = n;
    for k in (0..out.len()).rev() {
        out[k] = (left % 256) as u8;
        left /= 256;
    }
}
