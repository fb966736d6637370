// Answers the outside cases on standard input, a line for each: sheet to list (1), list to sheet (2), plan (3), check (4), window
// (5), live add (6), modem settings to list (7) and rounding (8).
#![tactic(auto)]

mod answers;
mod case;
mod stream;
mod sum;

use std::io;

// Each turn answers a case. A proved loop has to end, so the turns are counted, to a number that no stream uses up.
fn main(rt: HostRuntime) -> io::Result<()> {
    let mut from = rt.stdin();
    let mut to = rt.stdout();
    for _ in 0..u64::MAX {
        if !case::answer(&mut from, &mut to)? {
            break;
        }
    }
    Ok(())
}
