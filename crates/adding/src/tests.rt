// The new flow against the list and the table that it joins: its tests in their order, all but 22.
ghost use Rattle.std.specs.Prelude.{◌≡◌};
ghost use Rattle.flows.specs.Flows.{new_flow};
ghost use Rattle.adding.specs.Parts.{new_record, limit_tests, roomy, later_tests};

use crate::writing::new_count;
use flows::{Flow, new_flow};
use pairing::new_pair_tests;
use refusals::{Refusal, unless};

// 3 and 4 on the new list: the new flow of four plain numbers, if the list has room for one more and the flow keeps its rule.
pub(crate) fn new_record(
    list: &[u8],
    number: u64,
    size: u64,
    interval: u64,
    jitter: u64,
) -> Result<Flow, Refusal>
    ensures { result ≡ new_record list.now (new_flow number size interval jitter) }
{
    let n = lists::count(list);
    unless(n < 128, Refusal::Count)?;
    new_flow(number, size, interval, jitter).ok_or(Refusal::Field(n + 1))
}

// 21, and 7 on the new list: the interval is neither below the frame nor over the cycle, so both stay, and all grants together are
// at most 1,024. The table, which passes, tells the list's frame, cycle and grants.
fn limit_tests(table: &[u8], f: Flow) -> Result<(), Refusal>
    ensures { result ≡ limit_tests table.now f }
{
    let span = tables::frame(table)..=tables::cycle(table);
    unless(span.contains(&f.interval), Refusal::OutsideSpan)?;
    unless(new_count(table, f) <= 1024, Refusal::Limits)
}

// 9: the new list has room in n bytes, and the new table in m.
fn roomy(list: &[u8], table: &[u8], f: Flow, n: usize, m: usize) -> bool
    ensures { result ≡ roomy list.now table.now f n m }
{
    list.len() + 6 <= n && 8 + 5 * new_count(table, f) <= m
}

// 5 and 6 on the new list, 21, 7 on the new list, and 9 for rooms of n and m bytes.
pub(crate) fn later_tests(
    list: &[u8],
    table: &[u8],
    f: Flow,
    n: usize,
    m: usize,
) -> Result<(), Refusal>
    ensures { result ≡ later_tests list.now table.now f n m }
{
    new_pair_tests(list, f)?;
    limit_tests(table, f)?;
    unless(roomy(list, table, f, n, m), Refusal::Room)
}
