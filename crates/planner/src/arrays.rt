// The planner's state: four arrays, made for the largest list.
ghost use Rattle.std.specs.Prelude.{◌≡◌, replicate};
ghost use Rattle.planner.specs.Cells.{free};

// For each frame of the cycle its content and the largest overhang that its grants bear; the flows in the order of placing; for each
// flow its frame's overhang when its group ended. The flows' frames stand in bytes that the caller lends.
#[derive(Clone, Copy)]
pub struct Layout {
    pub contents: [u16; 256],
    pub limits: [u16; 256],
    pub order: [u8; 128],
    pub bases: [u16; 128],
}

impl Layout {
    // The frames of the longest cycle.
    pub const FRAMES: usize = 256;

    // The flows of the longest list.
    pub const FLOWS: usize = 128;

    // The limit of a frame that has no grant.
    pub const FREE: u16 = 65535;

    // Every frame is empty.
    pub(crate) fn empty() -> Layout
        ensures contents_value { (result.contents ≡ replicate 256 0) × (result.limits ≡ replicate 256 free) }
        ensures order_value { (result.order ≡ replicate 128 0) × (result.bases ≡ replicate 128 0) }
    {
        Layout {
            contents: [0; Layout::FRAMES],
            limits: [Layout::FREE; Layout::FRAMES],
            order: [0; Layout::FLOWS],
            bases: [0; Layout::FLOWS],
        }
    }
}
