// Condition (b) of soundness: the records of a group fit together, and what each holds is possible.
#![tactic(auto)]

ghost use Rattle.std.specs.Prelude.{◌≡◌, ◌<◌, ltb};
ghost use Rattle.bits.specs.Choice.{both, implies};
ghost use Rattle.bits.specs.Sets.{has, lane_count, every_in};
ghost use Rattle.model.specs.Records.{stage_at};
ghost use Rattle.model.specs.Sound.{agrees, settings_fit, verdict_fits, stage_fits};

use model::lane::{LaneRecord, Progress, Settings, Verdict, Working};
use model::status::Status;

// Whether a stage is in progress with the same group, trigger, staged set, verdict and next lane.
fn agrees(p: Progress, stage: Option<Progress>) -> bool
    ensures { result ≡ agrees p stage }
{
    match stage {
        None => false,
        Some(q) => {
            (p.group == q.group)
                & ((p.trigger == q.trigger) & ((p.set == q.set) & (p.verdict == q.verdict)))
        }
    }
}

// Whether a lane agrees, where it is one of the group.
fn agrees_if_in(w: Working, p: Progress, lane: u8) -> bool
    requires { lane < lane_count }
    ensures { result ≡ implies (has p.group lane) (agrees p (stage_at w lane)) }
{
    !bits_sets::is_in(p.group, lane) | agrees(p, records::stage_at(w, lane))
}

// Whether every lane of the group agrees.
fn all_agree(w: Working, p: Progress) -> bool
    ensures { result ≡ every_in p.group (λ m. agrees p (stage_at w m)) }
{
    (0..LaneRecord::COUNT).all(|lane| agrees_if_in(w, p, lane))
}

// Whether held values fit their fields: bits and nibbles; DPConfig is a byte.
fn settings_fit(h: Settings) -> bool
    ensures { result ≡ settings_fit h }
{
    (h.adaptive < 2)
        & (h.equalizer < 16)
        & (h.cdr_tx < 2)
        & (h.cdr_rx < 2)
        & (h.pre < 16)
        & (h.post < 16)
        & (h.amplitude < 16)
}

// Whether a pass's next lane is one of the group.
fn is_lane_of(group: u8, n: u8) -> bool
    ensures { result ≡ both (ltb n lane_count) (has group n) }
{
    if n < LaneRecord::COUNT {
        bits_sets::is_in(group, n)
    } else {
        false
    }
}

// A rejection's code is 2 to 7; a pass's next lane is one of the group or the end.
fn verdict_fits(group: u8, verdict: Verdict) -> bool
    ensures { result ≡ verdict_fits group verdict }
{
    match verdict {
        Verdict::Pass(n) => (n == LaneRecord::COUNT) | is_lane_of(group, n),
        Verdict::Reject(code) => (Status::REJECTED <= code) & (code <= Status::PARTIAL_PATH),
    }
}

// Condition (b) of soundness: the lane is of its group, whose lanes agree, and what its record holds is possible.
pub fn stage_fits(w: Working, lane: u8, stage: Option<Progress>) -> bool
    requires { lane < lane_count }
    ensures { result ≡ stage_fits w lane stage }
{
    match stage {
        None => true,
        Some(p) => {
            (bits_sets::is_in(p.group, lane) & all_agree(w, p))
                & (settings_fit(p.held) & verdict_fits(p.group, p.verdict))
        }
    }
}
