// Test 15: each flow of the list has cycle / interval grants.
ghost use Rattle.std.specs.Prelude.{◌≡◌};
ghost use Rattle.law.specs.Check.{test15};
ghost use Rattle.checking.specs.Parts.{flows_in, grants_in, Counts};

use crate::pair::Pair;
use finding::FLOWS;
use refusals::{Refusal, unless};

impl Pair<'_> {
    // Counts the grants of each flow in its cell.
    fn count_grants(&self, cells: &mut [u16; FLOWS])
        ensures { Counts (flows_in self.now) (grants_in self.now) cells.new }
    {
        *cells = [0; FLOWS];
        for i in 0..self.grants() {
            if let Some(k) = self.record_of(self.grant_at(i).flow) {
                cells[k] += 1;
            }
        }
    }

    // 15: the first list record, counted from 1, with a wrong number of grants.
    pub(crate) fn test_15(&self, cells: &mut [u16; FLOWS]) -> Result<(), Refusal>
        ensures { result ≡ test15 (flows_in self.now) (grants_in self.now) }
    {
        self.count_grants(cells);
        for i in 0..self.flows() {
            let due = flows::times(self.cycle, self.flow_at(i).interval);
            unless(cells[i] == due, Refusal::GrantCount(i + 1))?;
        }
        Ok(())
    }
}
