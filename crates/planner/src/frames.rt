// The frames of a window: what passes them, and one window's cells repeated to fill a longer one.
ghost use Rattle.std.specs.Prelude.{◌≡◌, ℕ, ◌-◌, ◌*◌, ◌<◌, ◌≤◌, length, take};
ghost use Rattle.placing.specs.Rule.{rep};
ghost use Rattle.planner.specs.Cells.{Reached};

// Where a walk along the frames stands: its frame, and the overhang that comes into it.
#[derive(Clone, Copy)]
pub struct Reach {
    pub at: usize,
    pub over: u32,
}

impl Reach {
    // The window's front, where every walk may begin.
    pub const FRONT: Reach = Reach { at: 0, over: 0 };
}

// What of t slots passes a frame.
pub(crate) fn past(t: u32, frame: u16) -> u32
    ensures { result ≡ t - frame }
{
    t.saturating_sub(u32::from(frame))
}

// The overhang that comes into frame k, worked out from where a walk stands, or from the front where that is behind k.
pub(crate) fn overhang(contents: &[u16], frame: u16, from: Reach, k: usize) -> u32
    requires inside { (length contents.now ≤ 256) × (k ≤ length contents.now) }
    requires reached { Reached frame contents.now from.at from.over }
    ensures { Reached frame contents.now k result }
{
    let start = if from.at <= k { from } else { Reach::FRONT };
    let mut over = start.over;
    for j in start.at..k {
        over = past(over + u32::from(contents[j]), frame);
    }
    over
}

// The first `width` cells over and over.
#[tactic(auto, using(crate::proofs::Copies::repeat_start, crate::proofs::Copies::repeat_turn, crate::proofs::Copies::repeat_end))]
pub(crate) fn repeat(cells: &mut [u16], width: usize)
    requires { (0 < width) × (width ≤ length cells.old) }
    ensures { (r : ℕ) → length cells.old ≡ r * width → cells.new ≡ rep r (take width cells.old) }
{
    for k in width..cells.len() {
        cells[k] = cells[k - width];
    }
}
