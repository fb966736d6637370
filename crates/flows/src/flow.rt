// A flow and its rule.
ghost use Rattle.std.specs.Prelude.{◌≡◌};
ghost use Rattle.flows.specs.Flows.{keeps, flow_with, fields_of};

// A flow: its number, and in slots its size, its interval and the jitter that it tolerates.
#[derive(Clone, Copy)]
pub struct Flow {
    pub number: u16,
    pub size: u16,
    pub interval: u16,
    pub jitter: u16,
}

impl Flow {
    // What is read where there is no record: zeros, which break the rule.
    pub const NONE: Flow = Flow {
        number: 0,
        size: 0,
        interval: 0,
        jitter: 0,
    };

    // The rule of test 4: number 1 to 1023, size 1 to 4,095, interval 1 to 4,096, size at most the interval, jitter below it.
    #[tactic(auto, unfolding(crate::specs::Flows::keeps))]
    pub fn keeps(self) -> bool
        ensures { result ≡ keeps self }
    {
        (1..=1023).contains(&self.number)
            && (1..=4095).contains(&self.size)
            && (1..=4096).contains(&self.interval)
            && self.size <= self.interval
            && self.jitter < self.interval
    }
}

// The flow of a record's fields.
impl From<[u16; 6]> for Flow {
    ghost from_gives = { λ values flow. flow ≡ flow_with values };

    fn from(values: [u16; 6]) -> Flow {
        Flow {
            number: values[0],
            size: values[1],
            interval: values[2],
            jitter: values[3],
        }
    }
}

// The fields of a flow's record.
impl From<Flow> for [u16; 6] {
    ghost from_gives = { λ flow values. values ≡ fields_of flow };

    fn from(flow: Flow) -> [u16; 6] {
        [flow.number, flow.size, flow.interval, flow.jitter, 0, 0]
    }
}
