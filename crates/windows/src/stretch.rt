// The question for a window of a table: tests 11, 12 and 19, and the stretch of records.
ghost use Rattle.std.specs.Prelude.{◌≡◌, ◌<◌};
ghost use Rattle.refusals.specs.Results.{Passed};
ghost use Rattle.tables.specs.Tables.{grants_of};
ghost use Rattle.tables.specs.Form.{test12};
ghost use Rattle.windows.specs.Window.{window_tests, before, edge, edges_of, Stretch};

use refusals::{Refusal, unless};
use tables::{count, cycle, form_tests, grant_at};

// Where the records of a window stand in the table, in bytes from its front: from byte `start` up to byte `end`.
#[derive(Clone, Copy)]
pub struct Edges {
    pub start: usize,
    pub end: usize,
}

// Tests 11, 12 and 19, in their order: the number of a refused window is had here.
#[tactic(auto, unfolding(crate::specs::Window::window_tests, crate::specs::Window::test19))]
pub fn window_tests(table: &[u8], a: u64, b: u64) -> Result<(), Refusal>
    ensures { result ≡ window_tests table.now a b }
{
    form_tests(table)?;
    unless(a <= b && b <= u64::from(cycle(table)), Refusal::WindowEnds)
}

// How many grants stand before the first that starts at a or later, found by halving, where the starts rise.
#[tactic(auto, using(crate::proofs::Windows::before_few, crate::proofs::Rising::past, crate::proofs::Rising::upto))]
fn grants_before(table: &[u8], a: u64) -> usize
    ensures few { result < 65536 }
    ensures before { test12 (grants_of table.now) ≡ Passed → result ≡ before a (grants_of table.now) }
{
    let mut low = 0;
    let mut high = count(table);
    while low < high {
        let middle = low + (high - low) / 2;
        let grant = grant_at(table, middle);
        if u64::from(grant.start) < a {
            low = middle + 1;
        } else {
            high = middle;
        }
    }
    low
}

// Where the records with a ≤ start < b stand in the table, in bytes from its front, or the window's refusal. Without such a
// record both ends stand before the first record with start ≥ a, or at the end of the table.
#[tactic(auto, unfolding(crate::specs::Window::edges_of, crate::specs::Window::edge), using(crate::proofs::Windows::window_rises))]
pub fn edges_of(table: &[u8], a: u64, b: u64) -> Result<Edges, Refusal>
    ensures { result ≡ edges_of table.now a b }
{
    window_tests(table, a, b)?;
    let first = 8 + 5 * grants_before(table, a);
    let end = 8 + 5 * grants_before(table, b);
    Ok(Edges { start: first, end })
}

// The records with a ≤ start < b, as a stretch of the caller's own table. Without such a record it is empty and stands before
// the first record with start ≥ a, or at the end of the table; on a refusal it is empty, at the table's front.
#[tactic(auto, using(crate::proofs::Windows::edges_found, crate::proofs::Windows::edges_none))]
pub fn window(table: &[u8], a: u64, b: u64) -> &[u8]
    ensures { Stretch table.entry result (edge (window_tests table.now a b) table.now a) (edge (window_tests table.now a b) table.now b) }
{
    match edges_of(table, a, b) {
        Ok(edges) => &table[edges.start..edges.end],
        Err(_) => &table[..0],
    }
}
