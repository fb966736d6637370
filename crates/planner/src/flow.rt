// One flow: put into its frame, and its group ended for it.
ghost use Rattle.std.specs.Prelude.{◌≡◌, ◌+◌, ◌<◌, ◌≤◌, length, take, get_or, set};
ghost use Rattle.planner.specs.Cells.{over, Reached, ends, ended_of};

use crate::frames::{Reach, overhang};

// Puts a flow of `size` slots, which has the index j, into frame k.
pub(crate) fn place(size: u16, j: usize, k: usize, contents: &mut [u16], frames: &mut [u8])
    requires { (j < length frames.old) × (k < 256) × (k < length contents.old) × (get_or contents.old k 0 + size < 65536) }
    ensures { (contents.new ≡ set contents.old k (get_or contents.old k 0 + size)) × (frames.new ≡ set frames.old j k) }
{
    contents[k] += size;
    frames[j] = k as u8;
}

// Ends the group for a flow with this jitter, which has the index j: its frame's overhang is its base from now on. Answers where the
// walk along the frames stands then.
#[tactic(auto, unfolding(crate::specs::Cells::ends))]
pub(crate) fn settle(
    jitter: u16,
    j: usize,
    frame: u16,
    contents: &[u16],
    limits: &mut [u16],
    frames: &[u8],
    bases: &mut [u16],
    from: Reach,
) -> Reach
    requires lengths { (length limits.old ≡ length contents.now) × (length contents.now ≤ 256) × (j < length frames.now) × (j < length bases.old) }
    requires frame_inside { (get_or frames.now j 0 < length contents.now) × (over frame 0 (take (get_or frames.now j 0) contents.now) < 65536) }
    requires reached { Reached frame contents.now from.at from.over }
    ensures ended { ended_of limits.new bases.new ≡ ends frame jitter j contents.now limits.old frames.now bases.old }
    ensures reached_after { Reached frame contents.now result.at result.over }
{
    let k = usize::from(frames[j]);
    let base = overhang(contents, frame, from, k);
    let most = base + u32::from(jitter);
    limits[k] = most.min(u32::from(limits[k])) as u16;
    bases[j] = base as u16;
    Reach { at: k, over: base }
}
