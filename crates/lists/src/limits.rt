// How many flows a list may have.
ghost use Rattle.std.specs.Prelude.{◌≡◌};
ghost use Rattle.logic.specs.Numbers.{among};

// A list has 1 to 128 flows.
pub fn few(n: usize) -> bool
    ensures { result ≡ among 1 128 n }
{
    (1..=128).contains(&n)
}
