// What the settings of an encoding ask for.
ghost use Rattle.std.specs.Prelude.{◌≡◌, ◌≤◌, [], ◌∷◌, length};
ghost use Rattle.settings.specs.Runs.{items};
ghost use Rattle.settings.specs.Encodings.{number, said};
ghost use Rattle.converting.specs.Parts.{also, with_item, heard};

use crate::items::next_item;
use settings::{Call, Said};

// The type of the setting that says a grant's size in bytes.
const GRANT_SIZE: u8 = 19;

// The type of the one that says the interval in microseconds.
const NOMINAL_INTERVAL: u8 = 20;

// The type of the one that says the jitter in microseconds.
const TOLERATED_JITTER: u8 = 21;

// The type of the one that says how many grants each interval has.
const GRANTS_PER_INTERVAL: u8 = 22;

// The number of at most four bytes, the most significant first.
#[tactic(auto, using(crate::proofs::Values::three_bytes, crate::proofs::Values::byte_more, crate::proofs::Values::number_next, crate::proofs::Values::number_end))]
fn number(value: &[u8]) -> u32
    requires { length value.now ≤ 4 }
    ensures { result ≡ number value.now }
{
    let mut v = 0;
    for b in value {
        v = 256 * v + u32::from(*b);
    }
    v
}

// What is said for one of the four, whose length is n bytes, and then by a setting more.
fn also(before: Said, value: &[u8], n: usize) -> Said
    requires { n ≤ 4 }
    ensures { result ≡ also before (said n (value.now ∷ [])) }
{
    match before {
        Said::Missing if value.len() == n => Said::Is(number(value)),
        _ => Said::Bad,
    }
}

// What is asked for by the settings so far, and then by one more: one of the four is noted, any other stepped over.
#[tactic(auto, using(crate::proofs::Hearing::also_missing))]
fn with_item(call: Call, kind: u8, value: &[u8]) -> Call
    ensures { result ≡ with_item call kind value.now }
{
    match kind {
        GRANT_SIZE => Call {
            size: also(call.size, value, 2),
            ..call
        },
        NOMINAL_INTERVAL => Call {
            interval: also(call.interval, value, 4),
            ..call
        },
        TOLERATED_JITTER => Call {
            jitter: also(call.jitter, value, 4),
            ..call
        },
        GRANTS_PER_INTERVAL => Call {
            grants: also(call.grants, value, 1),
            ..call
        },
        _ => call,
    }
}

// What settings ask for; nothing where one of them is broken.
#[tactic(auto, using(crate::proofs::Hearing::onward_start, crate::proofs::Hearing::onward_end, crate::proofs::Hearing::onward_broken, crate::proofs::Hearing::onward_next))]
pub(crate) fn call_in(run: &[u8]) -> Option<Call>
    ensures { result ≡ heard (items run.now) }
{
    let mut call = Call::NOTHING;
    let mut rest = run;
    while !rest.is_empty() {
        let (kind, value, behind) = next_item(rest)?;
        call = with_item(call, kind, value);
        rest = behind;
    }
    Some(call)
}
