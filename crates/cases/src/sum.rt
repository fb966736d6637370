// The sum of a room.
ghost use Rattle.std.specs.Prelude.{◌≡◌};
ghost use Rattle.cases.specs.Adler.{adler};

// The Adler-32 sum of the bytes.
pub fn adler(s: &[u8]) -> u32
    ensures { result ≡ adler s.now }
{
    let mut a: u32 = 1;
    let mut b: u32 = 0;
    for x in s {
        a = (a + u32::from(*x)) % 65521;
        b = (b + a) % 65521;
    }
    b * 65536 + a
}
