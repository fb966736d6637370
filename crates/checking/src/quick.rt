// A table that passes tests 14 to 18, told in one walk that notes no fault.
ghost use Rattle.std.specs.Prelude.{◌≡◌, true, ◌&&◌, leb};
ghost use Rattle.refusals.specs.Results.{Passed};
ghost use Rattle.law.specs.Check.{tests14to18};
ghost use Rattle.checking.specs.Parts.{flows_in, grants_in, tests_with, Spaced, Filled};

use crate::pair::Pair;
use crate::timing::{stamp, timely};
use finding::FLOWS;

// The slots from `start` to before `end` lie behind the last grant and inside the cycle.
fn lies(last: u16, start: u16, end: u16, cycle: u16) -> bool
    ensures { result ≡ (leb last start && leb end cycle) }
{
    last <= start && end <= cycle
}

impl Pair<'_> {
    // True only where the table passes tests 14, 16, 17 and 18: the walk stops at the first grant that does not. A flow's cell says the nominal time of its last grant so far.
    fn faultless(&self, cells: &mut [u16; FLOWS]) -> bool
        ensures { result ≡ true → (tests_with (flows_in self.now) (grants_in self.now) Passed ≡ Passed) × Spaced (flows_in self.now) (grants_in self.now) cells.new }
    {
        *cells = [0; FLOWS];
        let mut last = 0;
        for i in 0..self.grants() {
            let g = self.grant_at(i);
            let Some(k) = self.record_of(g.flow) else {
                return false;
            };
            let f = self.flow_at(k);
            if !timely(f, cells[k], g) {
                return false;
            }
            let end = g.start + facts::occupies(f);
            if !lies(last, g.start, end, self.cycle) {
                return false;
            }
            last = end;
            cells[k] = stamp(g);
        }
        true
    }

    // Each flow's last nominal time lies in the last interval of the cycle.
    fn filled(&self, cells: &[u16; FLOWS]) -> bool
        ensures { result ≡ true → Filled (flows_in self.now) cells.now }
    {
        for i in 0..self.flows() {
            if cells[i] <= self.cycle.saturating_sub(self.flow_at(i).interval) {
                return false;
            }
        }
        true
    }

    // True only where the table passes tests 14 to 18: the walk finds no fault, and then a flow has all its grants where the last is in the last interval.
    pub(crate) fn passes(&self, cells: &mut [u16; FLOWS]) -> bool
        ensures { result ≡ true → tests14to18 (flows_in self.now) (grants_in self.now) ≡ Passed }
    {
        self.faultless(cells) && self.filled(cells)
    }
}
