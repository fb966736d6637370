// Document 01's refusals and those that document 02 adds: an operation answers by a `Result` that carries one.
#![tactic(auto)]

ghost use Rattle.std.specs.Prelude.{◌≡◌};
ghost use Rattle.refusals.specs.Refusals.{number, place};
ghost use Rattle.refusals.specs.Tests.{◌⟫◌, unless};

// A refusal, named after its test, with the place at fault where document 01 names one: its number, when it is given, and what
// the place counts.
#[derive(Clone, Copy)]
pub enum Refusal {
    // 1: list under 4 bytes, or not its exact length
    Length,
    // 2: list edition, kind or spare bits wrong
    Head,
    // 3: count 0 or over 128
    Count,
    // 4: a field breaks its rule: record
    Field(usize),
    // 5: number already used by an earlier record: record
    UsedNumber(usize),
    // 6: interval unrelated to an earlier one: record
    Unrelated(usize),
    // 7: over 256 frames or over 1,024 grants
    Limits,
    // 8: load over the cycle
    Overload,
    // 9: room to write is too short
    Room,
    // 10: no lawful frame: record of the first such flow in placing order
    NoFrame(usize),
    // 11: table under 8 bytes, or wrong edition, kind, spare bits, count or length
    TableForm,
    // 12: starts not strictly rising: table record
    NotRising(usize),
    // 13: cycle or frame not the list's
    OtherCycle,
    // 14: flow not in the list: table record
    UnknownFlow(usize),
    // 15: wrong number of grants: list record
    GrantCount(usize),
    // 16: late over the jitter or over the start, first nominal time not below the interval, or a wrong step: table record
    Timing(usize),
    // 17: overlaps the record before: table record
    Overlap(usize),
    // 18: ends after the cycle: table record
    PastCycle(usize),
    // 19: window ends not 0 ≤ a ≤ b ≤ cycle
    WindowEnds,
    // 20: a sheet line not of its form: line
    Line(usize),
    // 21: the new flow's interval is below the frame or over the cycle
    OutsideSpan,
    // 22: no offset at which the new flow fits
    NoOffset,
    // 23: broken encoding, another type at the top, or one of the four settings repeated or of wrong length: encoding
    Encoding(usize),
    // 24: one of the four settings missing: encoding
    MissingSetting(usize),
    // 25: interval not a whole number of slots: encoding
    NotWhole(usize),
    // 26: a channel value of zero
    NoChannel,
    // 27: base 0 or over 4,096
    NoBase,
    // 28: interval below the base: record
    BelowBase(usize),
}

impl Refusal {
    // Its number in document 01.
    pub fn number(self) -> u32
        ensures { result ≡ number self }
    {
        match self {
            Refusal::Length => 1,
            Refusal::Head => 2,
            Refusal::Count => 3,
            Refusal::Field(_) => 4,
            Refusal::UsedNumber(_) => 5,
            Refusal::Unrelated(_) => 6,
            Refusal::Limits => 7,
            Refusal::Overload => 8,
            Refusal::Room => 9,
            Refusal::NoFrame(_) => 10,
            Refusal::TableForm => 11,
            Refusal::NotRising(_) => 12,
            Refusal::OtherCycle => 13,
            Refusal::UnknownFlow(_) => 14,
            Refusal::GrantCount(_) => 15,
            Refusal::Timing(_) => 16,
            Refusal::Overlap(_) => 17,
            Refusal::PastCycle(_) => 18,
            Refusal::WindowEnds => 19,
            Refusal::Line(_) => 20,
            Refusal::OutsideSpan => 21,
            Refusal::NoOffset => 22,
            Refusal::Encoding(_) => 23,
            Refusal::MissingSetting(_) => 24,
            Refusal::NotWhole(_) => 25,
            Refusal::NoChannel => 26,
            Refusal::NoBase => 27,
            Refusal::BelowBase(_) => 28,
        }
    }

    // The record, line or encoding that it names, 0 where it names none.
    pub fn place(self) -> usize
        ensures { result ≡ place self }
    {
        match self {
            Refusal::Field(p)
            | Refusal::UsedNumber(p)
            | Refusal::Unrelated(p)
            | Refusal::NoFrame(p)
            | Refusal::NotRising(p)
            | Refusal::UnknownFlow(p)
            | Refusal::GrantCount(p)
            | Refusal::Timing(p)
            | Refusal::Overlap(p)
            | Refusal::PastCycle(p)
            | Refusal::Line(p)
            | Refusal::Encoding(p)
            | Refusal::MissingSetting(p)
            | Refusal::NotWhole(p)
            | Refusal::BelowBase(p) => p,
            _ => 0,
        }
    }
}

// Passes, or refuses by r.
pub fn unless(passes: bool, r: Refusal) -> Result<(), Refusal>
    ensures { result ≡ unless passes r }
{
    if passes { Ok(()) } else { Err(r) }
}

// The tests so far, and then one that refuses by r unless it passes: the first that finds fault is the one that answers.
pub fn noted(before: Result<(), Refusal>, passes: bool, r: Refusal) -> Result<(), Refusal>
    ensures { result ≡ (before ⟫ unless passes r) }
{
    before?;
    unless(passes, r)
}
