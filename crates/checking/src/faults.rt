// Tests 14, 16, 17 and 18 in one walk over the grants of a table: the first fault of each is noted.
ghost use Rattle.std.specs.Prelude.{◌≡◌};
ghost use Rattle.refusals.specs.Results.{Checked};
ghost use Rattle.checking.specs.Parts.{flows_in, grants_in, answers, tests_with};

use crate::pair::Pair;
use crate::seen::Seen;
use crate::timing::{stamp, timely};
use finding::FLOWS;
use refusals::Refusal;

impl Pair<'_> {
    // What is seen of the table; the refusal of test 14 where a flow is not in the list. A flow's cell says the nominal time of its last grant so far.
    pub(crate) fn faults(&self, cells: &mut [u16; FLOWS]) -> Result<Seen, Refusal>
        ensures { (counts : Checked) → answers result counts ≡ tests_with (flows_in self.now) (grants_in self.now) counts }
    {
        *cells = [0; FLOWS];
        let mut seen = Seen::NONE;
        for i in 0..self.grants() {
            let g = self.grant_at(i);
            let k = self.record_of(g.flow).ok_or(Refusal::UnknownFlow(i + 1))?;
            let f = self.flow_at(k);
            seen = seen.next(timely(f, cells[k], g), f, g, self.cycle, i + 1);
            cells[k] = stamp(g);
        }
        Ok(seen)
    }
}
