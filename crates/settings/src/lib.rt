// Modem settings: what a run of upstream service flow encodings asks for, in bytes and microseconds, which flows that is, in slots,
// and that they hold what was asked. What is asked for is read by `converting`.
#![tactic(auto)]

ghost use Rattle.std.specs.Prelude.{◌≡◌};
ghost use Rattle.settings.specs.Encodings.{good, present, all_four};
ghost use Rattle.settings.specs.Slots.{amount};

// What an encoding says for one of the four settings: its number, that it is missing, or that it is repeated or of wrong length.
#[derive(Clone, Copy)]
pub enum Said {
    Missing,
    Is(u32),
    Bad,
}

impl Said {
    // Neither repeated nor of wrong length.
    pub fn is_good(self) -> bool
        ensures { result ≡ good self }
    {
        !matches!(self, Said::Bad)
    }

    // Not missing.
    pub fn is_present(self) -> bool
        ensures { result ≡ present self }
    {
        !matches!(self, Said::Missing)
    }

    // The number that is said; 0 where none is.
    pub fn amount(self) -> u32
        ensures { result ≡ amount self }
    {
        match self {
            Said::Is(n) => n,
            Said::Missing | Said::Bad => 0,
        }
    }
}

// What an encoding asks for: a grant size in bytes, an interval and a jitter in microseconds, and how many grants per interval.
#[derive(Clone, Copy)]
pub struct Call {
    pub size: Said,
    pub interval: Said,
    pub jitter: Said,
    pub grants: Said,
}

impl Call {
    // What is asked for where no setting is read yet.
    pub const NOTHING: Call = Call {
        size: Said::Missing,
        interval: Said::Missing,
        jitter: Said::Missing,
        grants: Said::Missing,
    };

    // None of the four is repeated or of wrong length.
    #[tactic(auto, unfolding(crate::specs::Encodings::all_four))]
    pub fn is_good(self) -> bool
        ensures { result ≡ all_four good self }
    {
        self.size.is_good()
            && self.interval.is_good()
            && self.jitter.is_good()
            && self.grants.is_good()
    }

    // None of the four is missing.
    #[tactic(auto, unfolding(crate::specs::Encodings::all_four))]
    pub fn is_complete(self) -> bool
        ensures { result ≡ all_four present self }
    {
        self.size.is_present()
            && self.interval.is_present()
            && self.jitter.is_present()
            && self.grants.is_present()
    }
}
