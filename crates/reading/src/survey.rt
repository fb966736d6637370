// Tests 20, 3 and 4 of a sheet and its records, in one look through its lines.
ghost use Rattle.std.specs.Prelude.{◌≡◌, ◌≤◌, length};
ghost use Rattle.sheets.specs.Tests.{survey_of};
ghost use Rattle.sheets.specs.Reader.{Recorded};

use crate::line::line_at;
use lists::few;
use refusals::{Refusal, noted};

// Tests 20, 3 and 4 in their order. The first bad line ends the look, so test 4 is answered only where every line is good. Each
// line's flow is written into the list as it is read; where the sheet passes, all its records then stand there.
pub(crate) fn survey_of(sheet: &[u8], list: &mut [u8]) -> Result<usize, Refusal>
    requires { 772 ≤ length list.old }
    ensures value { result ≡ survey_of sheet.now }
    ensures recorded { Recorded sheet.now list.old list.new }
{
    let mut at = 0;
    let mut n = 0;
    let mut rules = Ok(());
    while at < sheet.len() {
        let Some((f, end)) = line_at(sheet, at) else {
            return Err(Refusal::Line(n + 1));
        };
        let _ = lists::write_record(f, n, list);
        n += 1;
        rules = noted(rules, f.keeps(), Refusal::Field(n));
        at = end;
    }
    if !few(n) {
        return Err(Refusal::Count);
    }
    rules?;
    Ok(n)
}
