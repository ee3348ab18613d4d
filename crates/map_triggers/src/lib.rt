// The triggers' places on page 10h: ApplyDPInit and ApplyImmediate of the two staged sets.
#![tactic(auto)]

ghost use Rattle.std.specs.Prelude.{◌≡◌, ◌+◌, ◌^◌, ◌<◌};
ghost use Rattle.model.specs.Map.{trigger_at};
ghost use Rattle.map_triggers.specs.Meets.{meets_triggers};

use model::lane::{Apply, StagedSet, Trigger};

const APPLY_DP_INIT_0: usize = map::PAGE_10 + (143 - 128);

const APPLY_IMMEDIATE_0: usize = map::PAGE_10 + (144 - 128);

const APPLY_DP_INIT_1: usize = map::PAGE_10 + (178 - 128);

const APPLY_IMMEDIATE_1: usize = map::PAGE_10 + (179 - 128);

// A trigger of a staged set at its place.
fn applies(trigger: Trigger, set: StagedSet) -> Option<Apply>
    ensures { result ≡ Some (record { trigger = trigger; set = set }) }
{
    Some(Apply { trigger, set })
}

// The Apply that a write to a place asks for, if a trigger lies there.
pub fn trigger_at(i: usize) -> Option<Apply>
    ensures { result ≡ trigger_at i }
{
    match i {
        APPLY_DP_INIT_0 => applies(Trigger::DpInit, StagedSet::Set0),
        APPLY_IMMEDIATE_0 => applies(Trigger::Immediate, StagedSet::Set0),
        APPLY_DP_INIT_1 => applies(Trigger::DpInit, StagedSet::Set1),
        APPLY_IMMEDIATE_1 => applies(Trigger::Immediate, StagedSet::Set1),
        _ => None,
    }
}

// Whether one of n bytes from an index on is a trigger.
pub fn meets_triggers(i: usize, n: usize) -> bool
    requires { i + n < 2 ^ 64 }
    ensures { result ≡ meets_triggers i n }
{
    ((i <= APPLY_IMMEDIATE_0) & (APPLY_DP_INIT_0 < i + n))
        | ((i <= APPLY_IMMEDIATE_1) & (APPLY_DP_INIT_1 < i + n))
}
