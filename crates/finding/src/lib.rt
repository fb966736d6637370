// A list's records, found by the numbers of their flows: the records are noted by the last eight bits of their numbers, and a search goes through those that share them.
//
// No public function asks anything of its caller.
#![tactic(auto)]

ghost use Rattle.std.specs.Prelude.{◌≡◌, ◌%◌, ◌≤◌, ◌<◌};
ghost use Rattle.lists.specs.Lists.{count, flows_of};
ghost use Rattle.finding.specs.Parts.{record_of, record_in, first_of, behind, Indexed};

use lists::{count, flow_at};

// The flows of the longest list.
pub const FLOWS: usize = 128;

// What is noted where there is no record: a note is a byte, and no record is counted so high.
const ABSENT: u8 = 128;

// The last eight bits of a number.
fn last_bits(number: u16) -> usize
    ensures { (result ≡ number % 256) × (result < 256) }
{
    usize::from(number % 256)
}

// The record that a note says, if it says one.
fn record_in(note: u8) -> Option<usize>
    ensures { result ≡ record_in note }
{
    (note < ABSENT).then_some(usize::from(note))
}

// An index of a list's records: for any last eight bits the first record whose number ends in them, and for each record the next one that ends in the same.
#[derive(Drop)]
pub struct Index {
    pub firsts: [u8; 256],
    pub nexts: [u8; 128],
}

impl Index {
    // Nothing is noted.
    pub const EMPTY: Index = Index {
        firsts: [ABSENT; 256],
        nexts: [ABSENT; FLOWS],
    };

    // Notes the records of a list. What stood behind a record before is not looked at, and is written over where there is one.
    pub fn fill(&mut self, list: &[u8])
        ensures { count list.now ≤ 128 → Indexed (flows_of list.now) self.new }
    {
        self.firsts = [ABSENT; 256];
        for i in (0..count(list).min(FLOWS)).rev() {
            let bits = last_bits(flow_at(list, i).number);
            self.nexts[i] = self.firsts[bits];
            self.firsts[bits] = i as u8;
        }
    }

    // The first record whose number has the last eight bits of this one.
    fn first(&self, number: u16) -> Option<usize>
        ensures { result ≡ record_in (first_of self.now.firsts number) }
    {
        record_in(self.firsts[last_bits(number)])
    }

    // The record that is noted behind record k, if it is one further on.
    fn behind(&self, k: usize) -> Option<usize>
        requires { k < 128 }
        ensures { result ≡ behind self.now.nexts k }
    {
        record_in(self.nexts[k]).filter(|next| k < *next)
    }

    // The record, counted from 0, of the first flow with that number. The search follows the notes as long as they rise.
    pub fn record_of(&self, list: &[u8], number: u16) -> Option<usize>
        ensures { Indexed (flows_of list.now) self.now → result ≡ record_of (flows_of list.now) number }
    {
        let mut next = self.first(number);
        while let Some(k) = next {
            if flow_at(list, k).number == number {
                return Some(k);
            }
            next = self.behind(k);
        }
        None
    }
}
