// The copying step: one lane's held settings become its active ones.
#![tactic(auto)]

ghost use Rattle.std.specs.Prelude.{◌≡◌, ◌<◌};
ghost use Rattle.bits.specs.Sets.{lane_count};
ghost use Rattle.model.specs.Records.{stage_at, held_in};
ghost use Rattle.model.specs.Work.{early, written_settings, with_active, copied_state};
ghost use Rattle.contracts.specs.Forms.{IsState};
ghost use Rattle.model.specs.State.{state_with};

use model::image::Image;
use model::lane::Working;

// What lane n's own record holds is copied, whatever is staged by now.
fn copy_lane(image: &mut Image, w: Working, n: u8)
    requires { n < lane_count }
    ensures { image.new ≡ with_active (written_settings (held_in (stage_at w n))) n image.old }
{
    let held = records::held_at(w, n);
    view_settings::put_settings(image, n, view_settings::written(held));
}

// The step that copies lane n, after which the group's next lane follows.
pub fn copy_next(image: &mut Image, w: Working, group: u8, n: u8) -> Working
    requires { n < lane_count }
    ensures { IsState (copied_state early (state_with image.old w) group n) image.new result }
{
    copy_lane(image, w, n);
    let next = bits_sets::next_in(group, n + 1);
    records::advanced(w, group, next)
}
