// An accepted list and a table that is checked against it.
ghost use Rattle.checking.specs.Pairs.{Sound, Sound-prop};

use finding::Index;
use flows::Flow;
use tables::Grant;

// An accepted list with its index and its cycle, and a table.
#[derive(Drop)]
pub struct Pair<'a> {
    pub list: &'a [u8],
    pub index: &'a Index,
    pub cycle: u16,
    pub table: &'a [u8],
    ghost sound: { Sound list.now index.now cycle } by { Sound-prop list.now index.now cycle },
}

impl Pair<'_> {
    ghost use Rattle.std.specs.Prelude.{◌≡◌, ◌<◌, ◌≤◌, length, get_or, IfSome};
    ghost use Rattle.flows.specs.Flows.{no_flow};
    ghost use Rattle.law.specs.Law.{blank};
    ghost use Rattle.finding.specs.Parts.{record_of};
    ghost use Rattle.checking.specs.Parts.{flows_in, grants_in};

    // How many flows the list has.
    #[tactic(auto, using(crate::proofs::Entries::reads))]
    pub(crate) fn flows(&self) -> usize
        ensures { (result ≡ length (flows_in self.now)) × (result ≤ 128) }
    {
        lists::count(self.list)
    }

    // The flow of the list's record k, counted from 0, its fields handed on one by one as `lists` does.
    #[tactic(auto, using(crate::proofs::Entries::reads))]
    pub(crate) fn flow_at(&self, k: usize) -> Flow
        ensures { k < length (flows_in self.now) → result ≡ get_or (flows_in self.now) k no_flow }
    {
        let flow = lists::flow_at(self.list, k);
        Flow { ..flow }
    }

    // The list's record of the flow with that number, if the list has it.
    pub(crate) fn record_of(&self, number: u16) -> Option<usize>
        ensures value { result ≡ record_of (flows_in self.now) number }
        ensures inside { IfSome result (λ k. k < 128) }
    {
        self.index.record_of(self.list, number)
    }

    // How many grants the table has.
    #[tactic(auto, using(crate::proofs::Entries::reads))]
    pub(crate) fn grants(&self) -> usize
        ensures { (result ≡ length (grants_in self.now)) × (result < 65536) }
    {
        tables::count(self.table)
    }

    // The grant of the table's record i, counted from 0.
    #[tactic(auto, using(crate::proofs::Entries::reads))]
    pub(crate) fn grant_at(&self, i: usize) -> Grant
        ensures read { i < length (grants_in self.now) → result ≡ get_or (grants_in self.now) i blank }
        ensures small { result.start < 4096 }
    {
        tables::grant_at(self.table, i)
    }
}
