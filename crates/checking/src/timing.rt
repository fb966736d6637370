// Test 16 of a grant: how late it is, and how its nominal time steps from the flow's last one.
ghost use Rattle.std.specs.Prelude.{◌≡◌, ◌+◌, ◌-◌, ◌<◌};
ghost use Rattle.checking.specs.Parts.{steps_from, on_time};

use flows::Flow;
use tables::Grant;

// Start less late, and 0 where that is below 0.
fn nominal(g: Grant) -> u16
    ensures { result ≡ g.start - g.late }
{
    g.start.saturating_sub(g.late)
}

// A grant's nominal time as it is kept: with 1 added, since 0 is no grant.
pub(crate) fn stamp(g: Grant) -> u16
    requires { g.start < 4096 }
    ensures { result ≡ (g.start - g.late) + 1 }
{
    nominal(g) + 1
}

// A nominal time is the interval after the last one, which the stamp says; the first is below the interval.
fn steps(interval: u16, stamp: u16, time: u16) -> bool
    ensures { result ≡ steps_from interval stamp time }
{
    match stamp.checked_sub(1) {
        Some(last) => u32::from(time) == u32::from(last) + u32::from(interval),
        None => time < interval,
    }
}

// A grant is late by no more than the jitter and its start, and steps from the flow's last one, which the stamp says.
pub(crate) fn timely(f: Flow, stamp: u16, g: Grant) -> bool
    ensures { result ≡ on_time f.jitter f.interval stamp g.start g.late }
{
    g.late <= f.jitter && g.late <= g.start && steps(f.interval, stamp, nominal(g))
}
