// Test 5: a bit for each number says that an earlier record has it.
ghost use Rattle.std.specs.Prelude.{◌≡◌};
ghost use Rattle.lists.specs.Lists.{flows_of};
ghost use Rattle.lists.specs.Tests.{test5};

use lists::{count, flow_at};
use marks::{mark, marked};
use refusals::Refusal;

// Bytes for the bits of all numbers, which are below 1,024.
pub const BITS: usize = 128;

// Test 5 of a list: the first record whose bit is set already has a number used before. The lent bytes may hold anything before and
// after.
pub fn number_test(list: &[u8], bits: &mut [u8; BITS]) -> Result<(), Refusal>
    ensures { result ≡ test5 (flows_of list.now) }
{
    *bits = [0u8; BITS];
    let n = count(list);
    for i in 0..n {
        let x = flow_at(list, i).number;
        if marked(bits, x) {
            return Err(Refusal::UsedNumber(i + 1));
        }
        mark(bits, x);
    }
    Ok(())
}
