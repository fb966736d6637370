// An encoding of a run, read from the run's front.
ghost use Rattle.std.specs.Prelude.{◌<◌, length, MatchOption};
ghost use Rattle.converting.specs.Parts.{Unsound, Sound};

use crate::calls::call_in;
use crate::items::next_item;
use settings::Call;

// The type of an upstream service flow encoding.
const UPSTREAM: u8 = 24;

// What the encoding at a run's front asks for, and the run behind it; nothing where the encoding is broken, has another type, holds
// a broken setting, or has one of the four repeated or of wrong length.
#[tactic(auto, using(crate::proofs::Sounding::unsound_broken, crate::proofs::Sounding::unsound_other, crate::proofs::Sounding::unsound_setting, crate::proofs::Sounding::unsound_bad, crate::proofs::Sounding::sound_front))]
pub(crate) fn next_encoding(run: &[u8]) -> Option<(Call, &[u8])>
    requires { 0 < length run.now }
    ensures { MatchOption result (Unsound run.now) (λ p. Sound run.now p.0 p.1.now) }
{
    let (kind, value, behind) = next_item(run)?;
    if kind != UPSTREAM {
        return None;
    }
    let call = call_in(value)?;
    call.is_good().then_some((call, behind))
}
