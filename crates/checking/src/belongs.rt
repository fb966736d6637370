// Test 13: the table is made for the list.
ghost use Rattle.std.specs.Prelude.{◌≡◌};
ghost use Rattle.checking.specs.Parts.{belongs};

// The table has that cycle and that frame.
pub(crate) fn belongs(cycle: u16, frame: u16, table: &[u8]) -> bool
    ensures { result ≡ belongs cycle frame table.now }
{
    tables::cycle(table) == cycle && tables::frame(table) == frame
}
