// An item of a run, read from the run's front.
ghost use Rattle.std.specs.Prelude.{◌≡◌, ◌<◌, List, [], ◌∷◌, length, MatchOption};
ghost use Rattle.settings.specs.Runs.{Item, broken, items};
ghost use Rattle.converting.specs.Parts.{Front};

// The item at a run's front, by its type and its value, and the run behind it; nothing where the item is broken. It has a byte for
// its type, a byte for its length, and its value.
#[tactic(auto, using(crate::proofs::Standing::front_odd, crate::proofs::Standing::front_past, crate::proofs::Standing::front_holds))]
pub(crate) fn next_item(run: &[u8]) -> Option<(u8, &[u8], &[u8])>
    requires { 0 < length run.now }
    ensures { MatchOption result (items run.now ≡ broken ∷ []) (λ p. Front run.now p.0 p.1.now p.2.now) }
{
    let (kind, rest) = run.split_first()?;
    let (size, rest) = rest.split_first()?;
    let (value, behind) = rest.split_at_checked(usize::from(*size))?;
    Some((*kind, value, behind))
}
