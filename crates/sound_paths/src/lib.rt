// Whole paths: whether lanes share an AppSel and a DataPathID, fill what their descriptor asks, and agree on a state.
#![tactic(auto)]

ghost use Rattle.std.specs.Prelude.{◌≡◌, ◌<◌, eqb};
ghost use Rattle.bits.specs.Choice.{both, implies};
ghost use Rattle.bits.specs.Sets.{has, lane_count};
ghost use Rattle.model.specs.Map.{active_set};
ghost use Rattle.model.specs.Records.{stage_at, held_in};
ghost use Rattle.model.specs.View.{settings_of, states_of, applications_of, application_in, app_sel, path_id, fills};
ghost use Rattle.model.specs.Sound.{share, make_path, agree_on_state, held_settings_of};

use map::ACTIVE_SET;
use model::application::Descriptor;
use model::image::Image;
use model::lane::{LaneRecord, Working};

// Whether the lanes of a set share a lane's active AppSel, not 0, and its DataPathID.
fn share_active(image: &Image, set: u8, lane: u8) -> bool
    requires { lane < lane_count }
    ensures { result ≡ share (settings_of active_set image.now) (has set) lane }
{
    let app = view_paths::app_at(image, ACTIVE_SET, lane);
    let id = view_paths::id_at(image, ACTIVE_SET, lane);
    let with_app = view_paths::lanes_with_app(image, ACTIVE_SET, app);
    let with_id = view_paths::lanes_with_id(image, ACTIVE_SET, id);
    (app != 0) & bits_sets::lies_in(set, with_app & with_id)
}

// Whether a lane holds settings with an AppSel and a DataPathID, where it is one of the set.
fn shares_if_in(w: Working, set: u8, app: u8, id: u8, lane: u8) -> bool
    requires { lane < lane_count }
    ensures { result ≡ implies (has set lane) (both (eqb (app_sel (held_in (stage_at w lane))) app) (eqb (path_id (held_in (stage_at w lane))) id)) }
{
    let held = records::held_at(w, lane);
    let same = (view_settings::app_sel(held) == app) & (view_settings::path_id(held) == id);
    !bits_sets::is_in(set, lane) | same
}

// Whether the lanes of a set share a lane's held AppSel, not 0, and its DataPathID.
fn share_held(w: Working, set: u8, lane: u8) -> bool
    requires { lane < lane_count }
    ensures { result ≡ share (held_settings_of w) (has set) lane }
{
    let own = records::held_at(w, lane);
    let app = view_settings::app_sel(own);
    let id = view_settings::path_id(own);
    (app != 0) & (0..LaneRecord::COUNT).all(|other| shares_if_in(w, set, app, id, other))
}

// Whether a set is first .. first + n - 1, for a descriptor of n lanes that allows first.
fn fills(found: Option<Descriptor>, first: u8, set: u8) -> bool
    requires { first < lane_count }
    ensures { result ≡ fills found first set }
{
    match found {
        None => false,
        Some(d) => {
            let end = (first as u32) + (d.count as u32);
            let all = bits_sets::lanes_from(first, d.count);
            bits_sets::is_in(d.firsts, first) & ((end <= LaneRecord::COUNT as u32) & (set == all))
        }
    }
}

// Whether a set is the whole path of an AppSel and a DataPathID.
fn is_whole(image: &Image, app: u8, id: u8, set: u8) -> bool
    requires { (app < 16) × (id < 8) }
    ensures { result ≡ fills (application_in (applications_of image.now) app) id set }
{
    let found = applications::look_up(image, app);
    fills(found, id, set)
}

// Whether the active settings of a set's lanes make the whole path that is given.
pub fn active_path(image: &Image, set: u8, lane: u8, whole: u8) -> bool
    requires { lane < lane_count }
    ensures { result ≡ make_path (applications_of image.now) (settings_of active_set image.now) (has set) lane whole }
{
    let app = view_paths::app_at(image, ACTIVE_SET, lane);
    let id = view_paths::id_at(image, ACTIVE_SET, lane);
    share_active(image, set, lane) & is_whole(image, app, id, whole)
}

// Whether the settings held for a set's lanes make the whole path that is given.
pub fn held_path(image: &Image, w: Working, set: u8, lane: u8, whole: u8) -> bool
    requires { lane < lane_count }
    ensures { result ≡ make_path (applications_of image.now) (held_settings_of w) (has set) lane whole }
{
    let held = records::held_at(w, lane);
    let app = view_settings::app_sel(held);
    let id = view_settings::path_id(held);
    share_held(w, set, lane) & is_whole(image, app, id, whole)
}

// Whether the lanes of a set agree on a lane's state.
pub fn agree_on_state(image: &Image, set: u8, lane: u8) -> bool
    requires { lane < lane_count }
    ensures { result ≡ agree_on_state (states_of image.now) set lane }
{
    let own = bits_lanes::nibble(image, map::STATES, lane);
    bits_sets::lies_in(set, view_paths::lanes_in_state(image, own))
}
