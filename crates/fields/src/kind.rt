// The kinds of records, with the widths of their fields and where records of a kind stand.
ghost use Rattle.std.specs.Prelude.{◌≡◌, ◌≤◌, ◌+◌, ◌^◌, MatchOption};
ghost use Rattle.fields.specs.Kinds.{widths, bytes, head_bytes, place};

use std::ops::Range;

// A kind of record: the head of a list or of a table, or one of the records behind it.
#[derive(Clone, Copy)]
pub enum Kind {
    ListHead,
    ListRecord,
    TableHead,
    TableRecord,
}

// The field widths in bits, a row for each kind of record, in the order of the kinds. A width of 0 is no field.
const WIDTHS: [[u8; 6]; 4] = [
    [4, 4, 8, 16, 0, 0],
    [10, 12, 13, 13, 0, 0],
    [4, 4, 8, 16, 16, 16],
    [10, 12, 12, 6, 0, 0],
];

impl Kind {
    // The record's row of the table.
    pub(crate) fn widths(self) -> [u8; 6]
        ensures { result ≡ widths self }
    {
        WIDTHS[self as usize]
    }

    // How many bytes a record takes.
    pub(crate) fn bytes(self) -> usize
        ensures { result ≡ bytes self }
    {
        match self {
            Kind::ListHead => 4,
            Kind::ListRecord => 6,
            Kind::TableHead => 8,
            Kind::TableRecord => 5,
        }
    }

    // How many bytes the head takes that stands before records of this kind; a head stands first.
    pub(crate) fn head_bytes(self) -> usize
        ensures { result ≡ head_bytes self }
    {
        match self {
            Kind::ListHead | Kind::TableHead => 0,
            Kind::ListRecord => 4,
            Kind::TableRecord => 8,
        }
    }

    // The bytes of record i, counted from 0; nothing where they end beyond the numbers of their type.
    #[inline(always)]
    pub(crate) fn place(self, i: usize) -> Option<Range<usize>>
        ensures { MatchOption result (2 ^ 64 ≤ place self i + bytes self) (λ r. (r.start ≡ place self i) × (r.end ≡ place self i + bytes self)) }
    {
        let most = (usize::MAX - self.head_bytes()) / self.bytes();
        if most <= i {
            return None;
        }
        let start = self.head_bytes() + self.bytes() * i;
        Some(start..start + self.bytes())
    }
}
