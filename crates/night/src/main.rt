// Replays the night file on standard input: the whole of it is checked, and then its records are played.
#![tactic(auto)]

ghost use Rattle.std.specs.Prelude.{◌≡◌, ◌≤◌, length};
ghost use Rattle.model.specs.File.{file_check};
ghost use Rattle.night_text.specs.Buffer.{longest_line};

use model::answer::Answer;
use model::image::{IMAGE_LENGTH, Image};
use model::lane::Working;
use std::io;
use std::io::Read;

// The longest file, and one byte more to notice a longer one.
const INPUT: usize = 60913;

const OUTPUT: usize = 16384;

// The only line of a file that is not replayed.
fn print_bad(rt: &impl Print, answer: Answer, out: &mut [u8]) -> io::Result<()>
    requires { longest_line ≤ length out.old }
{
    let number = u8::from(answer);
    let n = night_text::put_bad(out, 0, number);
    rt.write_all(&out[..n])
}

// The lines of a good file. Whenever the output is full it is written.
fn print_lines(
    rt: &impl Print,
    file: &[u8],
    count: u32,
    image: &mut Image,
    out: &mut [u8],
) -> io::Result<()>
    requires { (file_check file.now ≡ Ok count) × (longest_line ≤ length out.old) }
{
    let offset = night_file::records_offset(file);
    night_runs::start_file_image(file, offset, image);
    let mut working = Working::idle();
    let mut next = 0;
    while next < count {
        let come = night_runs::play_file_run(image, working, file, offset, next, count, out);
        rt.write_all(&out[..come.reached.at])?;
        next = come.next;
        working = come.reached.working;
    }
    Ok(())
}

fn print_night(rt: &impl Print, file: &[u8], image: &mut Image, out: &mut [u8]) -> io::Result<()>
    requires { longest_line ≤ length out.old }
{
    let found = night_file::check(file);
    match found {
        Err(answer) => print_bad(rt, answer, out),
        Ok(count) => print_lines(rt, file, count, image, out),
    }
}

// Reads until the buffer is full, the input ends or a read fails, and hands back how many bytes it put at the front of the buffer.
fn read_full(input: &mut impl Read, buffer: &mut [u8]) -> usize
    ensures { result ≤ length buffer.new }
{
    let mut come = 0;
    while come < buffer.len() {
        let n = input.read(&mut buffer[come..]).unwrap_or(0);
        if n == 0 {
            break;
        }
        come += n;
    }
    come
}

// Reads to the end of the input or of the buffer, and prints what was read.
fn replay_input(
    rt: &(impl Input + Print),
    input: &mut [u8],
    image: &mut Image,
    out: &mut [u8],
) -> io::Result<()>
    requires { longest_line ≤ length out.old }
{
    let n = read_full(&mut rt.reader(), input);
    print_night(rt, &input[..n], image, out)
}

fn main(rt: HostRuntime) -> io::Result<()> {
    let mut input = [0u8; INPUT];
    let mut image = [0u8; IMAGE_LENGTH];
    let mut out = [0u8; OUTPUT];
    replay_input(&rt, &mut input, &mut image, &mut out)
}
