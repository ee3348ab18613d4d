// What a trigger holds of a lane that it marks: the settings of its staged set as they are now, beside the group, the trigger, the set and the verdict.
#![tactic(auto)]

ghost use Rattle.std.specs.Prelude.{◌≡◌, ◌<◌};
ghost use Rattle.model.specs.Map.{staged_base};
ghost use Rattle.bits.specs.Sets.{lane_count};
ghost use Rattle.model.specs.Records.{progress_of};
ghost use Rattle.model.specs.View.{settings_at};

use model::image::Image;
use model::lane::{Progress, StagedSet, Trigger, Verdict};

// The Apply that is under way on a marked lane.
pub fn marked_stage(
    image: &Image,
    kind: Trigger,
    set: StagedSet,
    lane: u8,
    group: u8,
    verdict: Verdict,
) -> Option<Progress>
    requires { lane < lane_count }
    ensures { result ≡ Some (progress_of kind set group (settings_at (staged_base set) image.now lane) verdict) }
{
    Some(Progress {
        group,
        held: view_settings::settings_at(image, set.base(), lane),
        trigger: kind,
        set,
        verdict,
    })
}
