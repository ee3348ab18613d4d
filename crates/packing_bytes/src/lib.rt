// A lane's record as sixteen bytes.
#![tactic(auto)]

ghost use Rattle.std.specs.Prelude.{◌≡◌};
ghost use Rattle.packing.specs.Packing.{record_bytes};

use model::lane::{LaneRecord, Verdict};
use packing::RECORD_LENGTH;

// A record's bytes: an idle one's are 0, but for what is on in the last two.
#[tactic(auto, unfolding(packing::specs::Packing::record_bytes, packing::specs::Packing::record_bytes_by))]
pub fn record_bytes(own: LaneRecord) -> [u8; RECORD_LENGTH]
    ensures { result ≡ record_bytes own }
{
    let [high, low] = own.on.to_be_bytes();
    match own.stage {
        None => [0, 0, 0, 0, 0, 0, 0, 0, 0, 0, 0, 0, 0, 0, high, low],
        Some(p) => {
            let (rejected, number) = match p.verdict {
                Verdict::Pass(lane) => (0, lane),
                Verdict::Reject(code) => (1, code),
            };
            [
                1,
                p.group,
                p.held.config,
                p.held.adaptive,
                p.held.equalizer,
                p.held.cdr_tx,
                p.held.cdr_rx,
                p.held.pre,
                p.held.post,
                p.held.amplitude,
                p.trigger as u8,
                p.set as u8,
                rejected,
                number,
                high,
                low,
            ]
        }
    }
}
