// A night's image and its records in runs, each as far as the output has room for a longest line: of a night in its parts, and of a checked file.
#![tactic(auto)]

ghost use Rattle.std.specs.Prelude.{◌≡◌, ◌+◌, ◌*◌, ◌≤◌, ◌<◌, length, ◌^◌};
ghost use Rattle.model.specs.Map.{image_length};
ghost use Rattle.model.specs.State.{state_with};
ghost use Rattle.model.specs.Start.{started_state};
ghost use Rattle.model.specs.File.{laid_out, edition_of, image_in, records_offset, record_length};
ghost use Rattle.night_text.specs.Buffer.{longest_line};
ghost use Rattle.night_records.specs.Edition.{row_of};
ghost use Rattle.night_runs.specs.Running.{Ran};
ghost use Rattle.night_runs.specs.FileRunning.{FileRan};

use access_limits::READ_LIMIT;
use model::image::Image;
use model::lane::Working;
use night_file::{IMAGE_OFFSET, Night};
use night_lines::{LONGEST_LINE, Reached};
use night_records::RECORD_LENGTH;

// The image whose carried bytes are given, as a module starts with it.
pub fn start_image(carried: &[u8], image: &mut Image)
    requires { length carried.now ≤ image_length }
    ensures { image.new ≡ (started_state (laid_out carried.now)).image }
{
    night_image::lay_out(carried, image);
    start_image::reset(image)
}

// How far a night has come: the next record's index, and what the run reached.
#[derive(Clone, Copy)]
pub struct Come {
    pub next: usize,
    pub reached: Reached,
}

// The records of a night in its parts from one on, while the output has room for a longest line: one at least.
pub fn play_run(
    image: &mut Image,
    working: Working,
    night: Night<'_>,
    first: usize,
    out: &mut [u8],
) -> Come
    requires { (first < length night.records.now) × (length night.records.now < 2 ^ 32) × (longest_line ≤ length out.old) }
    ensures { (first < result.next) × (result.next ≤ length night.entry.records.now) × (result.reached.at ≤ length out.new) × Ran (state_with image.old working) (row_of night.entry.edition) night.entry.records.now first out.old out.new image.new result }
{
    let mut buffer = [0u8; READ_LIMIT];
    let edition = night_file::number_of(night.edition);
    let mut reached = Reached { at: 0, working };
    for k in first..night.records.len() {
        if out.len() - reached.at < LONGEST_LINE {
            return Come { next: k, reached };
        }
        let record = &night.records[k];
        reached = night_lines::turn(image, reached, &mut buffer, record, edition, k as u32, out);
    }
    Come {
        next: night.records.len(),
        reached,
    }
}

// The image of a file, as a module starts with it.
pub fn start_file_image(file: &[u8], offset: usize, image: &mut Image)
    requires { (offset ≡ records_offset (edition_of file.now)) × (offset ≤ length file.now) }
    ensures { image.new ≡ (started_state (image_in file.now)).image }
{
    night_image::lay_out(&file[IMAGE_OFFSET..offset], image);
    start_image::reset(image)
}

// How far the night of a file has come: indices of 32 bits, as a header counts records.
#[derive(Clone, Copy)]
pub struct FileCome {
    pub next: u32,
    pub reached: Reached,
}

// The records of a file from one on, while the output has room for a longest line: one at least.
pub fn play_file_run(
    image: &mut Image,
    working: Working,
    file: &[u8],
    offset: usize,
    first: u32,
    count: u32,
    out: &mut [u8],
) -> FileCome
    requires { (offset ≡ records_offset (edition_of file.now)) × (offset + record_length * count ≤ length file.now) × (first < count) × (longest_line ≤ length out.old) }
    ensures { (first < result.next) × (result.next ≤ count) × (result.reached.at ≤ length out.new) × FileRan (state_with image.old working) file.now first out.old out.new image.new result }
{
    let mut buffer = [0u8; READ_LIMIT];
    let edition = night_file::edition_in(file);
    let (records, _) = file[offset..].as_chunks::<RECORD_LENGTH>();
    let mut reached = Reached { at: 0, working };
    for k in first..count {
        if out.len() - reached.at < LONGEST_LINE {
            return FileCome { next: k, reached };
        }
        let record = &records[k as usize];
        reached = night_lines::turn(image, reached, &mut buffer, record, edition, k, out);
    }
    FileCome {
        next: count,
        reached,
    }
}

#[cfg(test)]
mod tests {
    use super::*;
    use model::image::IMAGE_LENGTH;
    use night_records::Edition;

    const ROOM: usize = LONGEST_LINE + 6;

    // Reads of lower 0, which the night carries, and of lower 3, which a start leaves at 03h: the output has room for one line a run.
    #[test]
    fn a_night_in_its_parts_is_played_in_runs(rt: HostRuntime) {
        let records = [
            [2, 0, 1, 0, 0, 0, 0, 0, 0, 0, 0, 0],
            [2, 3, 1, 0, 0, 0, 0, 0, 0, 0, 0, 0],
        ];
        let night = Night {
            edition: Edition::Fourth,
            image: &[0x18],
            records: &records,
        };
        let mut image = [255u8; IMAGE_LENGTH];
        let mut out = [0u8; ROOM];
        start_image(night.image, &mut image);
        let come = play_run(&mut image, Working::idle(), night, 0, &mut out);
        assert_eq!(rt; come.next, 1);
        assert!(rt; out.starts_with(b"0 0 18\n"));
        assert_eq!(rt; come.reached.at, 7);
        let come = play_run(&mut image, come.reached.working, night, 1, &mut out);
        assert_eq!(rt; come.next, 2);
        assert!(rt; out.starts_with(b"1 0 03\n"));
    }
}
