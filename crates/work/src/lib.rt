// The work step: one lane's Apply taken one step further.
#![tactic(auto)]

ghost use Rattle.std.specs.Prelude.{◌≡◌, ◌<◌};
ghost use Rattle.bits.specs.Sets.{lane_count};
ghost use Rattle.model.specs.Work.{early, work_effect_by, work_effect_on, work_effect};
ghost use Rattle.model.specs.State.{state_with};
ghost use Rattle.work_closing.specs.Leaves.{Leaves};

use model::image::Image;
use model::lane::{LaneRecord, Progress, Trigger, Verdict, Working};
use model::status::Status;
use work_closing::Worked;

// A step of a group by its verdict.
fn by_verdict(
    image: &mut Image,
    w: Working,
    group: u8,
    trigger: Trigger,
    verdict: Verdict,
) -> Worked
    ensures { Leaves (work_effect_by verdict early (state_with image.old w) group trigger) image.new result }
{
    match verdict {
        Verdict::Reject(code) => {
            let working = work_closing::close(image, w, group, Status::rejected(code));
            Worked { mask: 0, working }
        }
        Verdict::Pass(n) => {
            if n < LaneRecord::COUNT {
                let working = work_copying::copy_next(image, w, group, n);
                Worked { mask: 0, working }
            } else {
                work_closing::close_pass(image, w, group, trigger)
            }
        }
    }
}

// A step by a lane's stage; an idle lane leaves everything as it is.
fn by_stage(image: &mut Image, w: Working, stage: Option<Progress>) -> Worked
    ensures { Leaves (work_effect_on stage early (state_with image.old w)) image.new result }
{
    match stage {
        None => Worked {
            mask: 0,
            working: w,
        },
        Some(p) => by_verdict(image, w, p.group, p.trigger, p.verdict),
    }
}

// A work step on a lane.
pub fn work(image: &mut Image, w: Working, lane: u8) -> Worked
    requires { lane < lane_count }
    ensures { Leaves (work_effect early (state_with image.old w) lane) image.new result }
{
    by_stage(image, w, records::stage_at(w, lane))
}
