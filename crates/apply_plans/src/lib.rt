// What a trigger decides: which lanes it marks, and the stage that it gives to each of them, all from the state before any is marked. A group is found once, at its first lane, and judged once.
#![tactic(auto)]

ghost use Rattle.std.specs.Prelude.{◌≡◌, ◌+◌, ◌≤◌, ◌<◌};
ghost use Rattle.bits.specs.Sets.{lane_count};
ghost use Rattle.model.specs.Map.{image_length, staged_base, set_length};
ghost use Rattle.model.specs.View.{view_of};
ghost use Rattle.apply_plans.specs.Plans.{known_of, found_for, Plans};

use model::image::Image;
use model::lane::{LaneRecord, Progress, StagedSet, Trigger, Verdict};

// The group of a lane, and the verdict on it, if none of its lanes is in progress.
#[derive(Clone, Copy)]
pub struct Found {
    pub lane: u8,
    pub group: u8,
    pub verdict: Option<Verdict>,
}

// The stage that a trigger gives to a lane.
#[derive(Clone, Copy)]
pub struct Given {
    pub stage: Option<Progress>,
}

// The lanes that a trigger marks, and what it gives to each of them; the others are given none.
#[derive(Clone, Copy)]
pub struct Planned {
    pub marked: u8,
    pub given: [Given; 8],
}

// What there is to know of a group.
fn judged(image: &Image, base: usize, kind: Trigger, busy: u8, lane: u8, group: u8) -> Found
    requires { base + set_length ≤ image_length }
    ensures { result ≡ known_of kind (view_of base image.now) busy lane group }
{
    if bits_sets::meets(group, busy) {
        return Found {
            lane,
            group,
            verdict: None,
        };
    }
    let verdict = Some(apply_verdicts::verdict_of(image, base, kind, group));
    Found {
        lane,
        group,
        verdict,
    }
}

// The group of a lane, and what there is to know of it.
fn find_anew(image: &Image, base: usize, kind: Trigger, busy: u8, selected: u8, lane: u8) -> Found
    requires { (base + set_length ≤ image_length) × (lane < lane_count) }
    ensures { result ≡ found_for kind (view_of base image.now) busy selected lane }
{
    let group = apply_groups::group_of(image, base, selected, lane);
    judged(image, base, kind, busy, lane, group)
}

// The group of a lane, where the one found last is known: if the lane is in it, that is its group.
fn find(
    image: &Image,
    base: usize,
    kind: Trigger,
    busy: u8,
    selected: u8,
    lane: u8,
    last: Found,
) -> Found
    requires { (base + set_length ≤ image_length) × (lane < lane_count) × (last ≡ found_for kind (view_of base image.now) busy selected last.lane) }
    ensures { result ≡ found_for kind (view_of base image.now) busy selected lane }
{
    if bits_sets::is_in(last.group, lane) {
        return Found { lane, ..last };
    }
    find_anew(image, base, kind, busy, selected, lane)
}

// The lanes that a trigger of a staged set marks among the selected ones, where those in progress are known, and their stages. The first group is found before
// the lanes are looked at one by one.
pub fn plan(image: &Image, kind: Trigger, set: StagedSet, busy: u8, selected: u8) -> Planned
    ensures { Plans kind set (view_of (staged_base set) image.now) busy selected lane_count result }
{
    let base = set.base();
    let mut marked = 0u8;
    let none = Given { stage: None };
    let mut given = [none; 8];
    let first = bits_sets::next_in(selected, 0);
    if LaneRecord::COUNT <= first {
        return Planned { marked, given };
    }
    let mut last = find_anew(image, base, kind, busy, selected, first);
    for lane in first..LaneRecord::COUNT {
        if bits_sets::is_in(selected, lane) {
            last = find(image, base, kind, busy, selected, lane, last);
            if let Some(verdict) = last.verdict {
                let stage = apply_held::marked_stage(image, kind, set, lane, last.group, verdict);
                given[lane as usize] = Given { stage };
                marked = bits_sets::with_lane(marked, lane, true);
            }
        }
    }
    Planned { marked, given }
}
