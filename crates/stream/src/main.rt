// Replays the night file on standard input as it comes: one read is one piece, and a piece's lines are written before the next read.
// With the argument N, 1 to 65536, a read takes at most N bytes.
#![tactic(auto)]

ghost use Rattle.std.specs.Prelude.{◌≡◌, ◌≤◌, length};
ghost use Rattle.night_text.specs.Buffer.{longest_line};

use model::image::{IMAGE_LENGTH, Image};
use pieces_carried::Carried;
use std::env::{Env, FillError};
use std::io;
use std::io::Read;

// The longest piece, and the output.
const PIECE: usize = 65536;

const OUTPUT: usize = 65536;

// More turns than an input can take that is still being answered: 912 + 12 * 4,294,967,295 bytes, one a turn at least.
const TURNS: u64 = 68719476736;

// The digits of an argument, and one more to notice a longer one.
const DIGITS: usize = 6;

// Reads piece after piece to the end of the input, and prints their lines. A read that fails counts as the end.
fn print_pieces(
    rt: &(impl Input + Print),
    piece: &mut [u8],
    image: &mut Image,
    out: &mut [u8],
) -> io::Result<Carried>
    requires { longest_line ≤ length out.old }
{
    let mut input = rt.reader();
    let mut carried = pieces::begin();
    for _ in 0..TURNS {
        let n = input.read(piece).unwrap_or(0);
        if n == 0 {
            break;
        }
        carried = pieces_out::print_piece(rt, image, carried, &piece[..n], out)?;
    }
    Ok(carried)
}

fn replay_pieces(
    rt: &(impl Input + Print),
    piece: &mut [u8],
    image: &mut Image,
    out: &mut [u8],
) -> io::Result<()>
    requires { longest_line ≤ length out.old }
{
    let carried = print_pieces(rt, piece, image, out)?;
    pieces_out::print_end(rt, carried, out)
}

// With pieces of at most so many bytes.
fn replay_by(rt: &(impl Input + Print), limit: usize) -> io::Result<()>
    requires { limit ≤ 65536 }
{
    let mut piece = [0u8; PIECE];
    let mut image = [0u8; IMAGE_LENGTH];
    let mut out = [0u8; OUTPUT];
    replay_pieces(rt, &mut piece[0..limit], &mut image, &mut out)
}

// A number in decimal, or 0 where there is none.
fn number_of(digits: &[u8]) -> usize {
    let mut number = 0;
    for digit in digits {
        if !digit.is_ascii_digit() || PIECE < number {
            return 0;
        }
        number = number * 10 + ((*digit - b'0') as usize);
    }
    number
}

// The limit that the argument names, or 0 where it is none.
fn limit_asked(rt: &impl Env) -> usize
    ensures { result ≤ 65536 }
{
    let mut word = [0u8; DIGITS];
    let n = rt.arg(1, &mut word).unwrap_or(0);
    let number = number_of(&word[..n]);
    if PIECE < number {
        return 0;
    }
    number
}

// Whether there is an argument of this number, of any length.
fn has_arg(rt: &impl Env, i: usize) -> bool {
    let mut word = [0u8; DIGITS];
    !matches!(rt.arg(i, &mut word), Err(FillError::NotPresent))
}

// How many arguments there are, the program's own name among them: three stand for more.
fn arg_count(rt: &impl Env) -> usize {
    (0..3).take_while(|i| has_arg(rt, *i)).count()
}

// How many bytes a piece has at most, or 0 where the arguments do not say it.
fn piece_limit(rt: &impl Env) -> usize
    ensures { result ≤ 65536 }
{
    match arg_count(rt) {
        1 => PIECE,
        2 => limit_asked(rt),
        _ => 0,
    }
}

fn main(rt: HostRuntime) -> io::Result<()> {
    let limit = piece_limit(&rt);
    if limit == 0 {
        return rt.eprintln("usage: stream [N], at most N bytes a piece, 1 to 65536");
    }
    replay_by(&rt, limit)
}
