// How often an interval comes in a cycle.
ghost use Rattle.std.specs.Prelude.{◌≡◌, ◌/◌};

// How often the interval comes in the cycle; an interval of 0 never comes.
pub fn times(cycle: u16, interval: u16) -> u16
    ensures { result ≡ cycle / interval }
{
    cycle.checked_div(interval).unwrap_or(0)
}
