// Groups: how the selected lanes fall into those that are set up or released together.
#![tactic(auto)]

ghost use Rattle.std.specs.Prelude.{◌≡◌, ◌+◌, ◌≤◌, ◌<◌};
ghost use Rattle.model.specs.View.{view_of};
ghost use Rattle.model.specs.Groups.{group_of};
ghost use Rattle.model.specs.Map.{image_length, set_length};
ghost use Rattle.bits.specs.Sets.{lane_count};

use model::image::Image;

// The group of a lane among the selected ones: with AppSel 0 staged the unused lanes of its active path and itself, else the used lanes of its staged DataPathID.
pub fn group_of(image: &Image, base: usize, selected: u8, lane: u8) -> u8
    requires { (base + set_length ≤ image_length) × (lane < lane_count) }
    ensures { result ≡ group_of (view_of base image.now) selected lane }
{
    let used = view_paths::used_lanes(image, base);
    if bits_sets::is_in(used, lane) {
        let id = view_paths::id_at(image, base, lane);
        return selected & (used & view_paths::lanes_with_id(image, base, id));
    }
    let path = view_paths::path_of(image, lane);
    selected & (!used & bits_sets::with_lane(path, lane, true))
}
