// What a list's flows say together, worked out: cycle, frame, grants and load.
//
// No public function asks anything of its caller.
#![tactic(auto)]

ghost use Rattle.std.specs.Prelude.{◌≡◌};
ghost use Rattle.lists.specs.Lists.{flows_of};
ghost use Rattle.lists.specs.Facts.{occupies, facts_of};
ghost use Rattle.facts.specs.Parts.{span_of, totals_of};

use flows::{Flow, times};
use lists::{Facts, count, flow_at};

// The largest and the smallest interval.
#[derive(Clone, Copy)]
pub struct Span {
    pub cycle: u16,
    pub frame: u16,
}

// The grants in a cycle and the slots that they take.
#[derive(Clone, Copy)]
pub struct Totals {
    pub grants: u64,
    pub load: u64,
}

// The slots that each grant of the flow takes.
#[tactic(auto, unfolding(lists::specs::Facts::occupies))]
pub fn occupies(f: Flow) -> u16
    ensures { result ≡ occupies f }
{
    f.size
}

// The list's cycle, frame, grants and load. Of a list that its tests refuse they are those of the records that are there.
#[tactic(auto, unfolding(lists::specs::Facts::facts_of, lists::specs::Facts::grants, lists::specs::Facts::load))]
pub fn facts_of(list: &[u8]) -> Facts
    ensures { result ≡ facts_of (flows_of list.now) }
{
    let Span { cycle, frame } = span_of(list);
    let Totals { grants, load } = totals_of(list, cycle);
    Facts {
        cycle,
        frame,
        grants,
        load,
    }
}

// The list's cycle and frame.
pub fn span_of(list: &[u8]) -> Span
    ensures { result ≡ span_of (flows_of list.now) }
{
    let mut cycle: u16 = 0;
    let mut frame = u16::MAX;
    for i in 0..count(list) {
        let f = flow_at(list, i);
        cycle = cycle.max(f.interval);
        frame = frame.min(f.interval);
    }
    Span {
        cycle,
        frame: frame.min(cycle),
    }
}

// The grants of the list's flows in the cycle, and the slots that they take.
fn totals_of(list: &[u8], cycle: u16) -> Totals
    ensures { result ≡ totals_of cycle (flows_of list.now) }
{
    let mut grants = 0;
    let mut load = 0;
    for i in 0..count(list) {
        let f = flow_at(list, i);
        let times = u64::from(times(cycle, f.interval));
        grants += times;
        load += u64::from(occupies(f)) * times;
    }
    Totals { grants, load }
}
