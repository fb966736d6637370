// Tests 5 and 6 of a packed list.
ghost use Rattle.std.specs.Prelude.{◌≡◌};
ghost use Rattle.lists.specs.Lists.{flows_of};
ghost use Rattle.pairing.specs.Parts.{pair_tests, new_pair_tests};

use crate::intervals::{interval_test, related};
use crate::numbers::{BITS, number_test};
use flows::Flow;
use lists::{count, flow_at};
use refusals::{Refusal, unless};

// Tests 5 and 6 of a list, in their order. The lent bytes may hold anything before and after.
pub fn pair_tests(list: &[u8], bits: &mut [u8; BITS]) -> Result<(), Refusal>
    ensures { result ≡ pair_tests (flows_of list.now) }
{
    number_test(list, bits)?;
    interval_test(list)
}

// Tests 5 and 6 of one flow more, behind those of a list that passes them.
pub fn new_pair_tests(list: &[u8], f: Flow) -> Result<(), Refusal>
    ensures { result ≡ new_pair_tests (flows_of list.now) f }
{
    let n = count(list);
    let is_new = (0..n).all(|i| flow_at(list, i).number != f.number);
    unless(is_new, Refusal::UsedNumber(n + 1))?;
    let is_related = (0..n).all(|i| related(flow_at(list, i).interval, f.interval));
    unless(is_related, Refusal::Unrelated(n + 1))
}
