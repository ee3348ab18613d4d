// Night files: the header, the parts, and the check of a whole file.
#![tactic(auto)]

ghost use Rattle.std.specs.Prelude.{◌≡◌, ◌+◌, ◌*◌, ◌≤◌, length, get_or, []};
ghost use Rattle.bits.specs.Choice.{both};
ghost use Rattle.bits.specs.Loop.{all_below};
ghost use Rattle.model.specs.Map.{image_length};
ghost use Rattle.model.specs.Refusals.{first_of, start_refusals};
ghost use Rattle.model.specs.File.{later_editions, edition_among, edition_of, is_header, is_whole_length, record_count, is_record, laid_out, file_check, image_offset, records_offset, record_limit, record_length};
ghost use Rattle.night_records.specs.Edition.{row_of};
ghost use Rattle.night_file.specs.Parts.{IsNight};

use model::answer::Answer;
use model::image::IMAGE_LENGTH;
use night_records::{Edition, RECORD_LENGTH, Record};

// The header: its two letters, and where its numbers and the image lie.
const LETTER_W: u8 = 0x57;

const LETTER_L: u8 = 0x4c;

const EDITION_AT: usize = 2;

const COUNT_AT: usize = 4;

pub const IMAGE_OFFSET: usize = 16;

pub type Header = [u8; IMAGE_OFFSET];

const RECORD_LIMIT: u32 = 5000;

// The number of an edition.
#[tactic(auto, unfolding(model::specs::File::edition_among, bits::specs::Choice::pick))]
pub fn number_of(edition: Edition) -> u8
    ensures { result ≡ (row_of edition).number }
{
    match edition {
        Edition::First => 1,
        Edition::Second => 2,
        Edition::Third => 3,
        Edition::Fourth => 4,
    }
}

// How many bytes of the image the edition of a number carries.
pub fn image_bytes(edition: u8) -> usize
    ensures row { result ≡ (edition_among later_editions edition).image_bytes }
    ensures fits { result ≤ image_length }
{
    match Edition::from(edition) {
        Edition::First => 768,
        Edition::Second => 896,
        Edition::Third => 896,
        Edition::Fourth => 896,
    }
}

// The number of the edition that a header names.
pub fn edition_in(header: &[u8]) -> u8
    requires { image_offset ≤ length header.now }
    ensures { result ≡ get_or header.now 2 0 }
{
    header[EDITION_AT]
}

// Where the records of a file begin: they follow its image.
pub fn records_offset(header: &[u8]) -> usize
    requires { image_offset ≤ length header.now }
    ensures { result ≡ records_offset (edition_of header.now) }
{
    IMAGE_OFFSET + image_bytes(edition_in(header))
}

// How many records a header counts.
pub fn record_count(header: &[u8]) -> u32
    requires { image_offset ≤ length header.now }
    ensures { result ≡ record_count header.now }
{
    bits_words::word4(header, COUNT_AT)
}

// Whether a header is as it must be, with no more records than a limit.
pub fn is_header(header: &[u8], limit: u32) -> bool
    requires { image_offset ≤ length header.now }
    ensures { result ≡ is_header limit header.now }
{
    let edition = edition_in(header);
    let letters = (header[0] == LETTER_W) & (header[1] == LETTER_L);
    let known = (edition == number_of(Edition::from(edition))) & (header[3] == 0);
    let count = record_count(header);
    let image_at = bits_words::word4(header, 8) as usize;
    let records_at = bits_words::word4(header, 12) as usize;
    let offset = records_offset(header);
    letters & (known & ((count <= limit) & ((image_at == IMAGE_OFFSET) & (records_at == offset))))
}

// Whether the header and the length of a file are right.
fn is_framed(file: &[u8]) -> bool
    ensures { result ≡ both (is_header record_limit file.now) (is_whole_length file.now) }
{
    let Some(header) = file.first_chunk::<IMAGE_OFFSET>() else {
        return false;
    };
    let whole = file.len()
        == records_offset(header) + RECORD_LENGTH * (record_count(header) as usize);
    is_header(header, RECORD_LIMIT) & whole
}

// A night file in its parts: its edition, the bytes that it carries of its image, and its records.
#[derive(Clone, Copy)]
pub struct Night<'a> {
    pub edition: Edition,
    pub image: &'a [u8],
    pub records: &'a [Record],
}

// The parts of a file of the length that its header names.
pub fn parts(file: &[u8]) -> Night<'_>
    requires { length file.now ≡ records_offset (edition_of file.now) + record_length * record_count file.now }
    ensures { IsNight file.now result.edition result.image.now result.records.now }
{
    let (header, rest) = file.split_first_chunk::<IMAGE_OFFSET>().unwrap();
    let edition = edition_in(header);
    let (image, rest) = rest.split_at(image_bytes(edition));
    let (records, _) = rest.as_chunks();
    Night {
        edition: Edition::from(edition),
        image,
        records,
    }
}

// Whether every record is one, in an edition.
fn are_records(records: &[Record], edition: Edition) -> bool
    ensures { result ≡ all_below (length records.now) (λ k. is_record (row_of edition) (get_or records.now k [])) }
{
    let number = number_of(edition);
    for record in records {
        if !night_records::is_record(record, number) {
            return false;
        }
    }
    true
}

// What start has against the image that a file carries, or that it takes it.
fn image_refusal(carried: &[u8]) -> Answer
    requires { length carried.now ≤ image_length }
    ensures { result ≡ first_of (start_refusals (laid_out carried.now)) }
{
    let mut image = [0u8; IMAGE_LENGTH];
    night_image::lay_out(carried, &mut image);
    start_image::refusal(&image)
}

// The check of a whole file: malformed first, then what start answers to its image.
pub fn check(file: &[u8]) -> Result<u32, Answer>
    ensures { result ≡ file_check file.now }
{
    if !is_framed(file) {
        return Err(Answer::Malformed);
    }
    let night = parts(file);
    if !are_records(night.records, night.edition) {
        return Err(Answer::Malformed);
    }
    let answer = image_refusal(night.image);
    if answer != Answer::Done {
        return Err(answer);
    }
    Ok(night.records.len() as u32)
}
