// A set of small numbers: a bit for each, eight to a byte.
//
// No function asks anything of its caller.
#![tactic(auto)]

ghost use Rattle.std.specs.Prelude.{◌≡◌, ◌&&◌, ◌||◌, ◌-◌, ◌%◌, min, eqb};
ghost use Rattle.marks.specs.Marks.{marked, Alike, Marks};

// The number x is marked.
pub fn marked(bits: &[u8], x: u16) -> bool
    ensures { result ≡ marked bits.now x }
{
    let Some(byte) = bits.get((x / 8) as usize) else {
        return false;
    };
    (byte >> (x % 8)) % 2 == 1
}

// The bit b is a byte's first, and all bits of the byte are the same.
fn uniform(byte: u8, b: u16) -> bool
    ensures { result ≡ (eqb byte 0 || eqb byte 255) && eqb b 0 }
{
    (byte == 0 || byte == 255) && b == 0
}

// How many numbers from x on are marked or not as x is, so far as a look at one byte tells: eight or one.
pub fn alike(bits: &[u8], x: u16) -> u16
    ensures { Alike bits.now x result }
{
    match bits.get((x / 8) as usize) {
        Some(byte) if uniform(*byte, x % 8) => 8,
        _ => 1,
    }
}

// Marks those of n numbers from x on that have their bits in one byte, if it is there, and answers how many they are. All others stay as
// they are.
pub fn mark_run(bits: &mut [u8], x: u16, n: u16) -> u16
    ensures { (result ≡ min n (8 - x % 8)) × Marks bits.old x result bits.new }
{
    let k = (x / 8) as usize;
    let run = n.min(8 - x % 8);
    if k < bits.len() {
        let ones = ((1u16 << run) - 1) << (x % 8);
        bits[k] |= ones as u8;
    }
    run
}

// Marks the number x, if it has a bit. All others stay as they are.
pub fn mark(bits: &mut [u8], x: u16)
    ensures { Marks bits.old x 1 bits.new }
{
    mark_run(bits, x, 1);
}
