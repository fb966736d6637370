// The smallest offset at which the new flow fits: the intervals of the cycle are laid over one another, and the first run of free
// places is taken.
ghost use Rattle.std.specs.Prelude.{◌≡◌, ◌+◌, ◌≤◌, ◌<◌};
ghost use Rattle.logic.specs.Lists.{All};
ghost use Rattle.lists.specs.Lists.{flows_of};
ghost use Rattle.tables.specs.Tables.{count, grants_of as grants_in};
ghost use Rattle.law.specs.Check.{slots};
ghost use Rattle.finding.specs.Parts.{Indexed};
ghost use Rattle.offsets.specs.Offsets.{offset};
ghost use Rattle.adding.specs.Parts.{Joins, Unmarked, Laid, Overlaid, first_run};

use facts::occupies;
use finding::Index;
use flows::Flow;
use lists::flow_at;
use marks::{alike, mark_run, marked};
use tables::Grant;

// Bytes for the marks of all places of the longest interval, which has 4,096.
const BYTES: usize = 512;

// Marks the places in the interval of the slots from `start` on.
#[tactic(auto, using(crate::proofs::Overlays::laid_next))]
fn mark_slots(taken: &mut [u8; BYTES], interval: u16, start: u16, slots: u16)
    requires within { (0 < interval) × (interval ≤ 4096) }
    requires early { start + slots < 65536 }
    ensures { Laid taken.old interval start (start + slots) taken.new }
{
    let end = start + slots;
    let mut slot = start;
    while slot < end {
        let place = slot % interval;
        slot += mark_run(taken, place, (end - slot).min(interval - place));
    }
}

// The slots of a grant, whose flow the index finds in the list; none where it is no flow of the list.
fn slots_of(list: &[u8], index: &Index, grant: Grant) -> u16
    requires { Indexed (flows_of list.now) index.now }
    ensures { result ≡ slots (flows_of list.now) grant }
{
    index
        .record_of(list, grant.flow)
        .map_or(0, |record| occupies(flow_at(list, record)))
}

// Marks the places in the interval of the slots of all grants.
fn mark_grants(list: &[u8], index: &Index, table: &[u8], interval: u16, taken: &mut [u8; BYTES])
    requires indexed { Indexed (flows_of list.now) index.now }
    requires early { All (λ g. g.start + slots (flows_of list.now) g ≤ 4096) (grants_in table.now) }
    requires within { (0 < interval) × (interval ≤ 4096) }
    requires unmarked { Unmarked taken.old }
    ensures { Overlaid (flows_of list.now) (grants_in table.now) (count table.now) interval taken.new }
{
    for i in 0..tables::count(table) {
        let grant = tables::grant_at(table, i);
        let slots = slots_of(list, index, grant);
        mark_slots(taken, interval, grant.start, slots);
    }
}

// The first place of the interval at which `size` places in a row are free, if there is one.
fn first_run(taken: &[u8; BYTES], size: u16, interval: u16) -> Option<u16>
    requires { (0 < size) × (size ≤ 4096) × (interval ≤ 4096) }
    ensures { result ≡ first_run taken.now size interval }
{
    let mut offset = 0;
    let mut place = 0;
    while offset + size <= interval {
        if offset + size <= place {
            return Some(offset);
        }
        let behind = place + alike(taken, place);
        if marked(taken, place) {
            offset = behind;
        }
        place = behind;
    }
    None
}

// The smallest offset at which the new flow fits, if there is one.
pub(crate) fn first_offset(list: &[u8], index: &Index, table: &[u8], f: Flow) -> Option<u16>
    requires { Indexed (flows_of list.now) index.now × Joins list.now table.now f }
    ensures { result ≡ offset (flows_of list.now) (grants_in table.now) f }
{
    let mut taken = [0; BYTES];
    mark_grants(list, index, table, f.interval, &mut taken);
    first_run(&taken, occupies(f), f.interval)
}
