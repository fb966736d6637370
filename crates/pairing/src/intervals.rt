// Test 6: the intervals that differ are kept, and a record's interval is compared with those alone.
//
// Each stands in the cell of its leading zeros. Two intervals with as many leading zeros are related only if they are the same, for the
// larger is less than twice the smaller. So each kept interval has a cell of its own.
ghost use Rattle.std.specs.Prelude.{◌≡◌, true, ◌<◌};
ghost use Rattle.lists.specs.Lists.{flows_of};
ghost use Rattle.lists.specs.Facts.{related};
ghost use Rattle.lists.specs.Tests.{test6};
ghost use Rattle.pairing.specs.Parts.{related_to_kept, Chain, Kept};

use lists::{count, flow_at};
use refusals::Refusal;

// A cell for each count of leading zeros, 0 to 16.
const CELLS: usize = 17;

// The smaller interval divides the larger.
pub(crate) fn related(a: u16, b: u16) -> bool
    ensures { result ≡ related a b }
{
    a.max(b).is_multiple_of(a.min(b))
}

// The interval x is related to each that is kept.
fn related_to_kept(kept: &[Option<u16>; CELLS], x: u16) -> bool
    ensures { result ≡ related_to_kept kept.now x }
{
    kept.iter().all(|cell| cell.is_none_or(|k| related(k, x)))
}

// The interval x, of 13 bits, is related to each that is kept, and is kept then too.
fn keep(kept: &mut [Option<u16>; CELLS], x: u16) -> bool
    requires { (x < 8192) × Chain kept.old }
    ensures value { result ≡ related_to_kept kept.old x }
    ensures kept { result ≡ true → Kept kept.old x kept.new }
{
    let own = x.leading_zeros() as usize;
    if kept[own] == Some(x) {
        return true;
    }
    if !related_to_kept(kept, x) {
        return false;
    }
    kept[own] = Some(x);
    true
}

// Test 6 of a list: the first record whose interval is unrelated to one that is kept. It has a stack frame of its own, so that its cells
// take none while test 5 runs.
#[inline(never)]
pub(crate) fn interval_test(list: &[u8]) -> Result<(), Refusal>
    ensures { result ≡ test6 (flows_of list.now) }
{
    let n = count(list);
    let mut kept = [None; CELLS];
    for i in 0..n {
        if !keep(&mut kept, flow_at(list, i).interval) {
            return Err(Refusal::Unrelated(i + 1));
        }
    }
    Ok(())
}
