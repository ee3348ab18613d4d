// Paths: the lanes of an AppSel, a DataPathID or a state, which of them an active DataPathID joins, and the states that a path rests in.
#![tactic(auto)]

ghost use Rattle.std.specs.Prelude.{◌≡◌, ◌+◌, ◌≤◌, ◌<◌, eqb, length};
ghost use Rattle.bits.specs.Number.{field};
ghost use Rattle.bits.specs.Sets.{mask_of, lane_count};
ghost use Rattle.model.specs.Map.{active_set};
ghost use Rattle.model.specs.PathStates.{resting};
ghost use Rattle.model.specs.View.{app_sel, path_id, of, state_in, is_used, settings_of, states_of, path_of};

use map::ACTIVE_SET;
use model::image::Image;
use model::lane::LaneRecord;
use model::path::PathState;

// A lane's AppSel in the set at a base.
pub fn app_at(image: &[u8], base: usize, lane: u8) -> u8
    requires { (base + 8 ≤ length image.now) × (lane < lane_count) }
    ensures { result ≡ app_sel (of (settings_of base image.now) lane) }
{
    bits::take_field(bits_lanes::lane_byte(image, base, lane), 4, 4)
}

// A lane's DataPathID in the set at a base.
pub fn id_at(image: &[u8], base: usize, lane: u8) -> u8
    requires { (base + 8 ≤ length image.now) × (lane < lane_count) }
    ensures { result ≡ path_id (of (settings_of base image.now) lane) }
{
    bits::take_field(bits_lanes::lane_byte(image, base, lane), 1, 3)
}

// Whether a lane is used in the set at a base.
pub fn used_at(image: &[u8], base: usize, lane: u8) -> bool
    requires { (base + 8 ≤ length image.now) × (lane < lane_count) }
    ensures { result ≡ is_used (of (settings_of base image.now) lane) }
{
    app_at(image, base, lane) != 0
}

// The lanes that have a value in the bits shift .. shift + width - 1 of their DPConfig in the set at a base. From the last lane down, so that the eight bytes are
// compared at once.
fn lanes_with(image: &[u8], base: usize, shift: u8, width: u8, value: u8) -> u8
    requires { (base + lane_count ≤ length image.now) × (width + shift ≤ 8) }
    ensures { result ≡ mask_of lane_count (λ m. eqb (field (of (settings_of base image.now) m).config shift width) value) }
{
    let mut found: u8 = 0;
    for k in 0..LaneRecord::COUNT {
        let config = bits_lanes::lane_byte(image, base, LaneRecord::COUNT - 1 - k);
        let same = bits::take_field(config, shift, width) == value;
        found = found * 2 + (same as u8);
    }
    found
}

// The lanes of an AppSel in the set at a base.
pub fn lanes_with_app(image: &[u8], base: usize, app: u8) -> u8
    requires { base + lane_count ≤ length image.now }
    ensures { result ≡ mask_of lane_count (λ m. eqb (app_sel (of (settings_of base image.now) m)) app) }
{
    lanes_with(image, base, 4, 4, app)
}

// The lanes of a DataPathID in the set at a base.
pub fn lanes_with_id(image: &[u8], base: usize, id: u8) -> u8
    requires { base + lane_count ≤ length image.now }
    ensures { result ≡ mask_of lane_count (λ m. eqb (path_id (of (settings_of base image.now) m)) id) }
{
    lanes_with(image, base, 1, 3, id)
}

// The lanes that are used in the set at a base.
pub fn used_lanes(image: &[u8], base: usize) -> u8
    requires { base + lane_count ≤ length image.now }
    ensures { result ≡ mask_of lane_count (λ m. is_used (of (settings_of base image.now) m)) }
{
    !lanes_with_app(image, base, 0)
}

// The lanes in a state.
pub fn lanes_in_state(image: &Image, state: u8) -> u8
    ensures { result ≡ mask_of lane_count (λ m. eqb (state_in (states_of image.now) m) state) }
{
    let mut found: u8 = 0;
    for lane in 0..LaneRecord::COUNT {
        let same = bits_lanes::nibble(image, map::STATES, lane) == state;
        found = bits_sets::with_lane(found, lane, same);
    }
    found
}

// The lanes of a lane's path; none where it is unused.
pub fn path_of(image: &Image, lane: u8) -> u8
    requires { lane < lane_count }
    ensures { result ≡ path_of (settings_of active_set image.now) lane }
{
    let used = used_lanes(image, ACTIVE_SET);
    if !bits_sets::is_in(used, lane) {
        return 0;
    }
    let id = id_at(image, ACTIVE_SET, lane);
    used & lanes_with_id(image, ACTIVE_SET, id)
}

// Whether a path rests in a state: DPDeactivated, DPInitialized, DPActivated.
pub fn is_resting(state: PathState) -> bool
    ensures { result ≡ resting state }
{
    match state {
        PathState::Reserved => false,
        PathState::Deactivated => true,
        PathState::Init => false,
        PathState::Deinit => false,
        PathState::Activated => true,
        PathState::TxTurnOn => false,
        PathState::TxTurnOff => false,
        PathState::Initialized => true,
    }
}
