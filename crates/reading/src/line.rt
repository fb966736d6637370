// A line of a sheet, read.
ghost use Rattle.std.specs.Prelude.{◌≡◌};
ghost use Rattle.sheets.specs.Reader.{ended_at, line_at};

use flows::Flow;
use sheets::{EVERY, FEED, FLOW, JITTER, SIZE};

// The flow and the place behind its line, where a line feed stands at the place.
fn ended(sheet: &[u8], at: usize, f: Flow) -> Option<(Flow, usize)>
    ensures { result ≡ ended_at at sheet.now f }
{
    words::begins(sheet.get(at..)?, &FEED).then_some((f, at + 1))
}

// The flow of the line that starts at a place, and the place behind it: the four words in order, a number behind each, and a
// line feed. A bad line has none.
#[tactic(auto, unfolding(sheets::specs::Reader::line_at))]
pub(crate) fn line_at(sheet: &[u8], at: usize) -> Option<(Flow, usize)>
    ensures { result ≡ line_at at sheet.now }
{
    let (number, at) = words::number_after(sheet, at, &FLOW)?;
    let (size, at) = words::number_after(sheet, at, &SIZE)?;
    let (interval, at) = words::number_after(sheet, at, &EVERY)?;
    let (jitter, at) = words::number_after(sheet, at, &JITTER)?;
    let f = Flow {
        number,
        size,
        interval,
        jitter,
    };
    ended(sheet, at, f)
}
