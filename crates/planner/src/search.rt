// The search for a flow's frame.
ghost use Rattle.std.specs.Prelude.{◌≡◌, ◌≤◌, length, IfSome, option_map};
ghost use Rattle.planner.specs.declared.frames.Reach.{Reach};
ghost use Rattle.planner.specs.Cells.{Starts, first};

use crate::frames::{Reach, past};

// The first frame of the window in which `size` slots more are lawful, and the overhang that comes into it; in none before the given
// one are they. Nothing is stored.
#[tactic(auto, unfolding(crate::specs::Cells::runs), using(crate::proofs::Runs::runs_end, crate::proofs::Runs::runs_out, crate::proofs::Starts::found_here, crate::proofs::Starts::found_none))]
pub(crate) fn first_lawful(
    contents: &[u16],
    limits: &[u16],
    frame: u16,
    size: u16,
    from: Reach,
) -> Option<Reach>
    requires same_length { (length limits.now ≡ length contents.now) × (length contents.now ≤ 256) }
    requires starts { Starts frame size contents.now limits.now from.at from.over }
    ensures found { option_map (λ (r : Reach). r.at) result ≡ first frame size 0 0 contents.now limits.now }
    ensures starts_there { IfSome result (λ r. Starts frame size contents.now limits.now r.at r.over) }
{
    let mut over = from.over;
    let mut frames = from.at..contents.len();
    'frames: loop {
        let Some(k) = frames.next() else {
            break 'frames None;
        };
        let filled = over + u32::from(contents[k]);
        if filled < u32::from(frame) {
            let mut push = past(filled + u32::from(size), frame);
            // What passes the frame is pushed onto the frames behind it, until it runs out or one of them bears no such overhang.
            let mut behind = contents[k + 1..].iter().zip(&limits[k + 1..]);
            loop {
                if push == 0 {
                    break 'frames Some(Reach { at: k, over });
                }
                let Some((content, limit)) = behind.next() else {
                    break;
                };
                if push > u32::from(*limit) {
                    break;
                }
                push = past(push + u32::from(*content), frame);
            }
        }
        over = past(filled, frame);
    }
}
