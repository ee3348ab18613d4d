// The lanes that a trigger marks: its groups are found, those with a lane in progress left alone, and each of the others judged once.
#![tactic(auto)]

ghost use Rattle.std.specs.Prelude.{◌≡◌, ◌+◌, ◌≤◌};
ghost use Rattle.model.specs.Map.{staged_base, set_length};
ghost use Rattle.bits.specs.Sets.{lane_count};
ghost use Rattle.model.specs.View.{view_of};
ghost use Rattle.model.specs.Verdicts.{verdict_of};
ghost use Rattle.apply_marks.specs.Marks.{Marks};

use model::image::Image;
use model::lane::{StagedSet, Trigger, Verdict, Working};

// What marking has come to: the records and the lanes marked.
#[derive(Clone, Copy)]
pub struct Marking {
    pub working: Working,
    pub marked: u8,
}

// The lanes and their records as the trigger marks them, all from the state before any is marked.
pub fn mark(image: &Image, w: Working, kind: Trigger, set: StagedSet, selected: u8) -> Marking
    ensures { Marks kind set (view_of (staged_base set) image.now) w selected lane_count result }
{
    let busy = records::busy_lanes(w);
    let plan = apply_plans::plan(image, kind, set, busy, selected);
    let mut working = w;
    for (lane, record) in working.lanes.iter_mut().enumerate() {
        if bits_sets::is_in(plan.marked, lane as u8) {
            *record = records::with_stage(*record, plan.given[lane].stage);
        }
    }
    Marking {
        working,
        marked: plan.marked,
    }
}
