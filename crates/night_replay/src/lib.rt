// A night file replayed: from its bytes to all that is printed, in a lent buffer.
#![tactic(auto)]

ghost use Rattle.std.specs.Prelude.{◌≡◌, ◌*◌};
ghost use Rattle.model.specs.File.{file_check};
ghost use Rattle.model.specs.Night.{printed_text};
ghost use Rattle.night_text.specs.Buffer.{line_room};
ghost use Rattle.contracts.specs.Texts.{Gives, GivesCount};
ghost use Rattle.night_replay.specs.Replay.{room_for};

use access_limits::READ_LIMIT;
use model::image::IMAGE_LENGTH;

// The room that a record's line asks for.
const LINE_ROOM: usize = 391;

// The text of a good file.
fn print_good(file: &[u8], count: u32, out: &mut [u8]) -> Option<usize>
    requires { file_check file.now ≡ Ok count }
    ensures { Gives (line_room 4 * count) (printed_text file.now) out.old out.new result }
{
    if out.len() < LINE_ROOM * (count as usize) {
        return None;
    }
    let mut image = [0u8; IMAGE_LENGTH];
    let mut buffer = [0u8; READ_LIMIT];
    let offset = night_file::records_offset(file);
    night_runs::start_file_image(file, offset, &mut image);
    let night = night_file::parts(file);
    let n = night_play::play(&mut image, &mut buffer, night, out);
    Some(n)
}

// All that is printed for a file, whatever bytes it holds.
pub fn replay(file: &[u8], out: &mut [u8]) -> Option<usize>
    ensures { Gives (room_for (file_check file.now)) (printed_text file.now) out.old out.new result }
{
    match night_file::check(file) {
        Err(answer) => night_buffers::print_bad(answer, out),
        Ok(count) => print_good(file, count, out),
    }
}

// `replay` for a program in C: the bytes printed, or the largest number where the buffer is too short.
#[unsafe(no_mangle)]
pub extern "C" fn night_replay(file: &[u8], out: &mut [u8]) -> usize
    ensures { GivesCount (room_for (file_check file.now)) (printed_text file.now) out.old out.new result }
{
    night_buffers::count_of(replay(file, out))
}
