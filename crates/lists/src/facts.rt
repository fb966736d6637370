// What a list's flows say together.

// The largest and the smallest interval, the grants in a cycle and the slots that they take.
#[derive(Clone, Copy)]
pub struct Facts {
    pub cycle: u16,
    pub frame: u16,
    pub grants: u64,
    pub load: u64,
}
