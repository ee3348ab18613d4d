// The verdict on a group: the first reason to reject it that applies, or a pass.
#![tactic(auto)]

ghost use Rattle.std.specs.Prelude.{◌≡◌, ◌+◌, ◌≤◌, ◌<◌};
ghost use Rattle.model.specs.Map.{active_set, image_length, set_length};
ghost use Rattle.model.specs.View.{view_of};
ghost use Rattle.bits.specs.Sets.{first_in, lane_count};
ghost use Rattle.model.specs.Verdicts.{passed, apply_by, apply_verdict, path_release, release_verdict, verdict_of};

use map::ACTIVE_SET;
use model::application::Descriptor;
use model::image::Image;
use model::lane::{LaneRecord, Trigger, Verdict};
use model::path::PathState;
use model::status::Status;

fn passed(group: u8) -> Verdict
    ensures { result ≡ passed group }
{
    Verdict::Pass(bits_sets::next_in(group, 0))
}

// The verdict on a group that asks for a descriptor's lanes from id on.
fn descriptor_verdict(
    image: &Image,
    base: usize,
    trigger: Trigger,
    group: u8,
    d: Descriptor,
    id: u8,
    app: u8,
) -> Verdict
    requires { (base + set_length ≤ image_length) × (id < 8) }
    ensures { result ≡ apply_by (Some d) trigger (view_of base image.now) group id app }
{
    if apply_reasons::is_misplaced(d, id, group) {
        return Verdict::Reject(Status::INVALID_PATH);
    }
    if apply_reasons::is_incomplete(d, id, group) {
        return Verdict::Reject(Status::PARTIAL_PATH);
    }
    if apply_reasons::is_crossing(image, group) {
        return Verdict::Reject(Status::LANES_IN_USE);
    }
    if apply_reasons::is_unsupported(image, base, group) {
        return Verdict::Reject(Status::INVALID_SETTINGS);
    }
    if apply_reasons::is_wrong_state(image, trigger, group, app) {
        return Verdict::Reject(Status::REJECTED);
    }
    passed(group)
}

// The verdict on a group that asks for app from id on.
fn apply_verdict(
    image: &Image,
    base: usize,
    trigger: Trigger,
    group: u8,
    id: u8,
    app: u8,
) -> Verdict
    requires { (base + set_length ≤ image_length) × (id < 8) × (app < 16) }
    ensures { result ≡ apply_verdict trigger (view_of base image.now) group id app }
{
    if apply_reasons::has_other_app_sel(image, base, group, app) {
        return Verdict::Reject(Status::INVALID_PATH);
    }
    let Some(d) = applications::look_up(image, app) else {
        return Verdict::Reject(Status::INVALID_APPLICATION);
    };
    descriptor_verdict(image, base, trigger, group, d, id, app)
}

// The verdict on the release of a path. The staged set has no part in it.
fn path_release(image: &Image, group: u8, first: u8) -> Verdict
    requires { (first < lane_count) × (first ≡ first_in group) }
    ensures { result ≡ path_release (view_of active_set image.now) group }
{
    let missing = view_paths::path_of(image, first) != group;
    let running = bits_lanes::nibble(image, map::STATES, first) != PathState::DEACTIVATED;
    if missing {
        return Verdict::Reject(Status::PARTIAL_PATH);
    }
    if running {
        return Verdict::Reject(Status::LANES_IN_USE);
    }
    Verdict::Pass(first)
}

// The verdict on a release. The staged set has no part in it.
fn release_verdict(image: &Image, group: u8, first: u8) -> Verdict
    requires { (first < lane_count) × (first ≡ first_in group) }
    ensures { result ≡ release_verdict (view_of active_set image.now) group }
{
    if view_paths::used_at(image, ACTIVE_SET, first) {
        return path_release(image, group, first);
    }
    Verdict::Pass(first)
}

// The verdict on a group.
pub fn verdict_of(image: &Image, base: usize, trigger: Trigger, group: u8) -> Verdict
    requires { base + set_length ≤ image_length }
    ensures { result ≡ verdict_of trigger (view_of base image.now) group }
{
    let first = bits_sets::next_in(group, 0);
    if LaneRecord::COUNT <= first {
        return Verdict::Pass(first);
    }
    if view_paths::used_at(image, base, first) {
        let id = view_paths::id_at(image, base, first);
        let app = view_paths::app_at(image, base, first);
        return apply_verdict(image, base, trigger, group, id, app);
    }
    release_verdict(image, group, first)
}
