// The records of a night file played in their order: each one's event, and its line.
#![tactic(auto)]

ghost use Rattle.std.specs.Prelude.{◌≡◌, ◌*◌, ◌≤◌, length};
ghost use Rattle.model.specs.Records.{idle_working};
ghost use Rattle.model.specs.State.{state_with};
ghost use Rattle.model.specs.File.{record_limit};
ghost use Rattle.night_text.specs.Buffer.{Puts, line_room};
ghost use Rattle.night_records.specs.Edition.{row_of};
ghost use Rattle.night_play.specs.Playing.{text_after};

use access_limits::READ_LIMIT;
use model::image::Image;
use model::lane::Working;
use night_file::Night;
use night_lines::Reached;

// The records of a file, each with its turn, from an image with all lanes idle.
pub fn play(
    image: &mut Image,
    buffer: &mut [u8; READ_LIMIT],
    night: Night<'_>,
    out: &mut [u8],
) -> usize
    requires { (length night.records.now ≤ record_limit) × (line_room 4 * length night.records.now ≤ length out.old) }
    ensures { Puts 0 (text_after (state_with image.old idle_working) (row_of night.entry.edition) night.entry.records.now (length night.entry.records.now)) out.old out.new result }
{
    let edition = night_file::number_of(night.edition);
    let mut reached = Reached {
        at: 0,
        working: Working::idle(),
    };
    for (k, record) in night.records.iter().enumerate() {
        reached = night_lines::turn(image, reached, buffer, record, edition, k as u32, out);
    }
    reached.at
}
