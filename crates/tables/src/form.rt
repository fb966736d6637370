// A table's form, told from the table alone: tests 11 and 12.
ghost use Rattle.std.specs.Prelude.{◌≡◌, ◌-◌, length, Err};
ghost use Rattle.refusals.specs.declared.Refusal.TheVariants.{TableForm, NotRising};
ghost use Rattle.refusals.specs.Results.{Refused};
ghost use Rattle.refusals.specs.Tests.{◌⟫◌, unless};
ghost use Rattle.tables.specs.Tables.{place};
ghost use Rattle.tables.specs.Form.{headed, spared, form_tests};
ghost use Rattle.tables.specs.Parts.{whole, record_tests};

use crate::packed::{count, head_of, spare_at, values_at, values_of};
use refusals::{Refusal, unless};

// The head's edition, kind and spare bits are right.
#[tactic(auto, unfolding(crate::specs::Form::headed))]
fn headed(table: &[u8]) -> bool
    ensures { result ≡ headed table.now }
{
    matches!(head_of(table), [1, 2, 0, ..])
}

// The table has at least 8 bytes; the right edition, kind and spare bits in its head; a count of 1 to 1,024; and its exact length.
#[tactic(auto, unfolding(crate::specs::Parts::whole))]
fn whole(table: &[u8]) -> bool
    ensures { result ≡ whole table.now }
{
    let n = count(table);
    8 <= table.len() && headed(table) && (1..=1024).contains(&n) && table.len() == 8 + 5 * n
}

// The spare bits of the first n records are 0, from record `from` on, counted from 0.
fn spared(table: &[u8], from: usize, n: usize) -> bool
    ensures { result ≡ spared table.now from (n - from) }
{
    for i in from..n {
        if spare_at(table, i) != 0 {
            return false;
        }
    }
    true
}

// 12 at record i, or 11 where one of the records behind it, of n, has spare bits.
fn not_rising(table: &[u8], i: usize, n: usize) -> Refusal
    ensures { Err result ≡ (unless (spared table.now i (n - i)) TableForm ⟫ Refused (NotRising i)) }
{
    if spared(table, i, n) {
        Refusal::NotRising(i)
    } else {
        Refusal::TableForm
    }
}

// What tests 11 and 12 ask of the n records, in one walk that keeps their places: none has spare bits, and none starts before `least`.
// It has a frame of its own, so that it costs a table that passes nothing.
#[inline(never)]
fn first_fault(table: &[u8], n: usize) -> Result<(), Refusal>
    ensures { result ≡ record_tests table.now n }
{
    let mut least = 0;
    for i in 0..n {
        let [_, start, _, spare, ..] = values_at(table, i);
        if spare != 0 {
            return Err(Refusal::TableForm);
        }
        if start < least {
            return Err(not_rising(table, i + 1, n));
        }
        least = start + 1;
    }
    Ok(())
}

// What tests 11 and 12 ask of the n records: a table that passes is gone through quickly, of any other the walk that keeps the places
// tells the first fault. No record starts before `next`.
fn record_tests(table: &[u8], n: usize) -> Result<(), Refusal>
    requires { length table.now ≡ place n }
    ensures { result ≡ record_tests table.now n }
{
    let (records, _) = table[8..].as_chunks::<5>();
    let mut next = 0;
    for bytes in records {
        let [_, start, _, spare, ..] = values_of(bytes);
        if spare != 0 || start < next {
            return first_fault(table, n);
        }
        next = start + 1;
    }
    Ok(())
}

// Tests 11 and 12, in their order.
#[tactic(auto, using(crate::proofs::Forms::form_parts))]
pub fn form_tests(table: &[u8]) -> Result<(), Refusal>
    ensures { result ≡ form_tests table.now }
{
    unless(whole(table), Refusal::TableForm)?;
    record_tests(table, count(table))
}
