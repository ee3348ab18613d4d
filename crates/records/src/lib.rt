// The lanes' records: everything that looks into one or replaces one.
#![tactic(auto)]

ghost use Rattle.std.specs.Prelude.{◌≡◌, ◌<◌};
ghost use Rattle.bits.specs.Choice.{both};
ghost use Rattle.bits.specs.Sets.{has, mask_of, lane_count};
ghost use Rattle.model.specs.Map.{lasting_count};
ghost use Rattle.model.specs.Records.{stage_at, on_at, is_in_progress, is_pass, is_passing, held_in, with_line, with_stage, with_verdict, freed_working, advanced_working};
ghost use Rattle.model.specs.View.{is_used};
ghost use Rattle.model.specs.Work.{is_release};

use model::lane::{LaneRecord, Progress, Settings, Verdict, Working};

// The Apply under way on a lane, if there is one.
pub fn stage_at(w: Working, lane: u8) -> Option<Progress>
    requires { lane < lane_count }
    ensures { result ≡ stage_at w lane }
{
    w.lanes[lane as usize].stage
}

// The flags of a lane that are on, a bit for each.
pub fn on_at(w: Working, lane: u8) -> u16
    requires { lane < lane_count }
    ensures { result ≡ on_at w lane }
{
    w.lanes[lane as usize].on
}

// Whether a flag is among those that are on.
pub fn is_on(on: u16, flag: u8) -> bool
    requires { flag < lasting_count }
    ensures { result ≡ has on flag }
{
    (on as u32) / bits::pow2(flag) % 2 == 1
}

// Whether an Apply is under way.
pub fn is_in_progress(stage: Option<Progress>) -> bool
    ensures { result ≡ is_in_progress stage }
{
    stage.is_some()
}

// Whether the Apply of a record is under way.
fn is_record_busy(r: LaneRecord) -> bool
    ensures { result ≡ is_in_progress r.stage }
{
    is_in_progress(r.stage)
}

// Whether a lane is in progress. Each lane has an arm of its own: an index that is not a constant would lay all records out in memory.
pub fn is_busy(w: Working, lane: u8) -> bool
    requires { lane < lane_count }
    ensures { result ≡ is_in_progress (stage_at w lane) }
{
    match lane {
        0 => is_record_busy(w.lanes[0]),
        1 => is_record_busy(w.lanes[1]),
        2 => is_record_busy(w.lanes[2]),
        3 => is_record_busy(w.lanes[3]),
        4 => is_record_busy(w.lanes[4]),
        5 => is_record_busy(w.lanes[5]),
        6 => is_record_busy(w.lanes[6]),
        _ => is_record_busy(w.lanes[7]),
    }
}

// The lanes in progress.
pub fn busy_lanes(w: Working) -> u8
    ensures { result ≡ mask_of lane_count (λ l. is_in_progress (stage_at w l)) }
{
    let mut busy: u8 = 0;
    for lane in 0..LaneRecord::COUNT {
        let yes = is_in_progress(stage_at(w, lane));
        busy = bits_sets::with_lane(busy, lane, yes);
    }
    busy
}

fn is_pass(verdict: Verdict) -> bool
    ensures { result ≡ is_pass verdict }
{
    match verdict {
        Verdict::Pass(_) => true,
        Verdict::Reject(_) => false,
    }
}

// Whether the lane belongs to a passing group.
pub fn is_passing(stage: Option<Progress>) -> bool
    ensures { result ≡ is_passing stage }
{
    match stage {
        None => false,
        Some(p) => is_pass(p.verdict),
    }
}

// The settings that a stage holds; an idle one holds zeros.
fn held_in(stage: Option<Progress>) -> Settings
    ensures { result ≡ held_in stage }
{
    match stage {
        None => Settings {
            config: 0,
            adaptive: 0,
            equalizer: 0,
            cdr_tx: 0,
            cdr_rx: 0,
            pre: 0,
            post: 0,
            amplitude: 0,
        },
        Some(p) => p.held,
    }
}

// The settings that a lane's record holds.
pub fn held_at(w: Working, lane: u8) -> Settings
    requires { lane < lane_count }
    ensures { result ≡ held_in (stage_at w lane) }
{
    held_in(stage_at(w, lane))
}

// Whether a lane is one of the group and holds an AppSel.
fn holds_app(w: Working, group: u8, lane: u8) -> bool
    requires { lane < lane_count }
    ensures { result ≡ both (has group lane) (is_used (held_in (stage_at w lane))) }
{
    bits_sets::is_in(group, lane) & view_settings::is_used(held_at(w, lane))
}

// A release: no lane of the group holds an AppSel.
pub fn is_release(w: Working, group: u8) -> bool
    ensures { result ≡ is_release w group }
{
    !(0..LaneRecord::COUNT).any(|lane| holds_app(w, group, lane))
}

// The record with another stage, and nothing else of it changed: the one place that replaces a stage.
pub fn with_stage(r: LaneRecord, stage: Option<Progress>) -> LaneRecord
    ensures { result ≡ with_stage r stage }
{
    LaneRecord { stage, ..r }
}

// The stage with another verdict; an idle one stays.
fn with_verdict(stage: Option<Progress>, verdict: Verdict) -> Option<Progress>
    ensures { result ≡ with_verdict stage verdict }
{
    match stage {
        None => None,
        Some(p) => Some(Progress { verdict, ..p }),
    }
}

// The group's lanes idle again.
pub fn freed(w: Working, group: u8) -> Working
    ensures { result ≡ freed_working w group }
{
    let mut next = w;
    for (lane, own) in next.lanes.iter_mut().enumerate() {
        if bits_sets::is_in(group, lane as u8) {
            *own = with_stage(*own, None);
        }
    }
    next
}

// The group's next lane is n.
pub fn advanced(w: Working, group: u8, n: u8) -> Working
    ensures { result ≡ advanced_working w group n }
{
    let mut next = w;
    for (lane, record) in next.lanes.iter_mut().enumerate() {
        if bits_sets::is_in(group, lane as u8) {
            *record = with_stage(*record, with_verdict(record.stage, Verdict::Pass(n)));
        }
    }
    next
}

// The low-power line set, and the lanes' records as they were.
pub fn with_line(w: Working, on: bool) -> Working
    ensures { result ≡ with_line w on }
{
    Working { line: on, ..w }
}
