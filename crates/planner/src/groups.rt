// The groups of a list, placed by rising interval.
ghost use Rattle.std.specs.Prelude.{◌≡◌, ℕ, ◌*◌, ◌≤◌, ◌<◌, length, take, get_or, replicate, Ok};
ghost use Rattle.logic.specs.Lists.{All};
ghost use Rattle.lists.specs.Lists.{count, flow_at, flows_of};
ghost use Rattle.lists.specs.Facts.{frame as frame_of};
ghost use Rattle.lists.specs.Accepted.{Accepted};
ghost use Rattle.placing.specs.Rule.{intervals, layout};
ghost use Rattle.planner.specs.Cells.{free, over, group_cells, laid_of, end_cells, ended_of};
ghost use Rattle.planner.specs.Order.{Group, Ordered};
ghost use Rattle.planner.specs.State.{Ready, Added};
ghost use Rattle.planner.specs.Finished.{Finished, Housed, Taken};

use crate::flow::{place, settle};
use crate::frames::{Reach, repeat};
use crate::order::Groups;
use crate::search::first_lawful;

// Where the search for a flow's frame starts: at the frame found last, whose flow took `least` slots, or at the front for a flow of
// fewer.
fn search_start(size: u16, least: u16, last: Reach) -> Reach
    ensures { (size < least → (result.at ≡ 0) × (result.over ≡ 0)) × (least ≤ size → (result.at ≡ last.at) × (result.over ≡ last.over)) }
{
    if size < least { Reach::FRONT } else { last }
}

// Places the flows of one group in the window. Contents only grow and limits stand still meanwhile, so a frame in which some slots
// are not lawful is none for as many or more later.
fn place_group(
    list: &[u8],
    group: &[u8],
    frame: u16,
    contents: &mut [u16],
    limits: &[u16],
    frames: &mut [u8],
) -> Result<(), usize>
    requires flows_fit { count list.now ≤ length frames.old }
    requires grouped { (n : ℕ) × Group list.now group.now n }
    requires window { (length limits.now ≡ length contents.old) × (length contents.old ≤ 256) × (length contents.old * frame < 65536) }
    ensures { (n : ℕ) → Group list.now group.now n → laid_of result contents.new frames.new ≡ group_cells frame n 0 contents.old limits.now frames.old (flows_of list.now) }
{
    let mut last = Reach::FRONT;
    let mut least = 0;
    for j in group {
        let i = usize::from(*j);
        let size = facts::occupies(lists::flow_at(list, i));
        let from = search_start(size, least, last);
        last = first_lawful(contents, limits, frame, size, from).ok_or(i + 1)?;
        place(size, i, last.at, contents, frames);
        least = size;
    }
    Ok(())
}

// Ends one group.
fn settle_group(
    list: &[u8],
    group: &[u8],
    frame: u16,
    contents: &[u16],
    limits: &mut [u16],
    frames: &[u8],
    bases: &mut [u16],
)
    requires flows_fit { (count list.now ≤ length frames.now) × (count list.now ≤ length bases.old) }
    requires window { (length limits.old ≡ length contents.now) × (length contents.now ≤ 256) }
    requires placed { (n : ℕ) × Group list.now group.now n × ((i : ℕ) → i < count list.now → (flow_at list.now i).interval ≡ n → get_or frames.now i 0 < length contents.now) }
    requires overhangs_fit { (k : ℕ) → k < length contents.now → over frame 0 (take k contents.now) < 65536 }
    ensures { (n : ℕ) → Group list.now group.now n → ended_of limits.new bases.new ≡ end_cells frame n 0 contents.now limits.old frames.now bases.old (flows_of list.now) }
{
    let mut from = Reach::FRONT;
    for j in group {
        let i = usize::from(*j);
        let jitter = lists::flow_at(list, i).jitter;
        from = settle(jitter, i, frame, contents, limits, frames, bases, from);
    }
}

// Adds one group: the layout of `width` frames is repeated to fill the window, the group's flows are placed, and it ends.
fn add_group(
    list: &[u8],
    group: &[u8],
    frame: u16,
    width: usize,
    contents: &mut [u16],
    limits: &mut [u16],
    frames: &mut [u8],
    bases: &mut [u16],
) -> Result<(), usize>
    requires flows_fit { (count list.now ≤ length frames.old) × (count list.now ≤ length bases.old) }
    requires ready { (n : ℕ) × Group list.now group.now n × Ready frame n width (flows_of list.now) contents.old limits.old frames.old bases.old }
    ensures added { (n : ℕ) → Group list.now group.now n → Added frame n width (flows_of list.now) contents.old limits.old frames.old bases.old result contents.new limits.new frames.new bases.new }
    ensures taken { (n : ℕ) → Group list.now group.now n → Ready frame n width (flows_of list.now) contents.old limits.old frames.old bases.old → result ≡ Ok tt → Taken list.now n (length contents.old) frames.old frames.new }
{
    repeat(contents, width);
    repeat(limits, width);
    place_group(list, group, frame, contents, limits, frames)?;
    settle_group(list, group, frame, contents, limits, frames, bases);
    Ok(())
}

// Places every flow, group by group in the order of placing.
pub(crate) fn place_all(
    list: &[u8],
    order: &[u8],
    frame: u16,
    contents: &mut [u16],
    limits: &mut [u16],
    frames: &mut [u8],
    bases: &mut [u16],
) -> Result<(), usize>
    requires flows_fit { (count list.now ≤ length frames.old) × (count list.now ≤ length bases.old) }
    requires ordered { Ordered list.now order.now }
    requires accepted { Accepted (flows_of list.now) × (frame ≡ frame_of (flows_of list.now)) }
    requires empty { (contents.old ≡ replicate 256 0) × (limits.old ≡ replicate 256 free) }
    ensures finished { Finished frame (flows_of list.now) (layout (flows_of list.now)) result contents.new limits.new frames.new bases.new }
    ensures housed { result ≡ Ok tt → All (Housed frame list.now frames.new) (intervals (flows_of list.now)) }
{
    let mut width = 1;
    for (interval, group) in (Groups { list, order }) {
        let window = usize::from(interval / frame);
        add_group(
            list,
            group,
            frame,
            width,
            &mut contents[..window],
            &mut limits[..window],
            frames,
            bases,
        )?;
        width = window;
    }
    Ok(())
}
