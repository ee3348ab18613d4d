// The host's accesses, on a module whose image has its length: the refusals 4 and 5, then the access, the end of a write or what is on and shows again, then lower 3.0.
#![tactic(auto)]

ghost use Rattle.std.specs.Prelude.{◌≡◌, [], ◌+◌, ◌≤◌, length};
ghost use Rattle.contracts.specs.Forms.{IsState, IsOutcome};
ghost use Rattle.step_host.specs.Settled.{settled_state, plain_image};
ghost use Rattle.bits.specs.Choice.{only_if};
ghost use Rattle.model.specs.Access.{bytes_written_state, ended_state, half_end, runs_command};
ghost use Rattle.model.specs.Commands.{command_image};
ghost use Rattle.model.specs.Flags.{shown_again_image};
ghost use Rattle.model.specs.Pages.{index_of};
ghost use Rattle.model.specs.State.{state_with};
ghost use Rattle.model.specs.Outcome.{step_outcome};
ghost use Rattle.model.specs.Step.{event, step};
ghost use Rattle.model.specs.Work.{early};
ghost use Rattle.model.specs.declared.event.Call.TheVariants.{Write, Read};
ghost use Rattle.contracts.specs.Asked.{asked};

use contracts::Returned;
use model::answer::Answer;
use model::image::Image;
use model::lane::Working;

// The last flag that can last.
const LAST_LASTING: u8 = map::LATER_LASTING + map::LASTING_COUNT - 1;

// The command that a plain write runs, if it reaches the address that runs one: few do, and the others ask for no page.
fn end_plain(image: &mut Image, address: u8, count: usize)
    requires { address + count ≤ half_end address }
    ensures { image.new ≡ only_if (runs_command address count image.old) command_image image.old }
{
    let first = address as usize;
    if (first <= commands::RUN_ADDRESS) & (commands::RUN_ADDRESS < first + count) {
        commands::end_write(image, address, count);
    }
}

// A plain write: its bytes, the command that it runs, then lower 3.0.
fn write_plain(image: &mut Image, address: u8, bytes: &[u8])
    requires { address + length bytes.now ≤ half_end address }
    ensures { image.new ≡ plain_image address bytes.now image.old }
{
    access_writes::write_plain(image, address, bytes);
    end_plain(image, address, bytes.len());
    flags_interrupt::settle(image)
}

// A write that is not refused: its bytes, then its end, then lower 3.0.
fn write_bytes(image: &mut Image, w: Working, address: u8, bytes: &[u8]) -> Working
    requires { address + length bytes.now ≤ half_end address }
    ensures { IsState (settled_state (ended_state address bytes.now (length bytes.now) (bytes_written_state address bytes.now (state_with image.old w)))) image.new result }
{
    if access_writes::is_plain_write(image, address, bytes.len()) {
        write_plain(image, address, bytes);
        return w;
    }
    let written = access_writes::write_each(image, w, address, bytes);
    let ended = access_ends::end_write(image, written, address, bytes);
    flags_interrupt::settle(image);
    ended
}

// A host write of count of the bytes that are given.
pub fn write(image: &mut Image, w: Working, address: u8, count: u8, bytes: [u8; 8]) -> Returned
    ensures { IsOutcome (step_outcome (step early 0 (state_with image.old w) (event (Write address count) bytes)) []) result image.new [] }
{
    let n = count as usize;
    if access_limits::bad_access(access_limits::WRITE_LIMIT, address, n) {
        return contracts::reply(Answer::BadAccess, w);
    }
    let written = write_bytes(image, w, address, &bytes[..n]);
    contracts::reply(Answer::Done, written)
}

// Of n bytes read from an address on, the flags that are on show again. A read of other addresses asks for no index.
fn show_flags(image: &mut Image, w: Working, address: u8, n: usize)
    requires { address + n ≤ half_end address }
    ensures { image.new ≡ shown_again_image w (index_of image.old address) n image.old }
{
    if (address <= LAST_LASTING) & ((map::FIRST_LASTING as usize) < (address as usize) + n) {
        let i = pages::index_of(image, address);
        flags_shown::show_again(image, w, i, n);
    }
}

// A host read of count bytes into the front of a buffer.
pub fn read(image: &mut Image, w: Working, address: u8, count: u8, buffer: &mut [u8]) -> Returned
    ensures { IsOutcome (step_outcome (step early (length buffer.old) (state_with image.old w) (asked (Read address count))) buffer.old) result image.new buffer.new }
{
    let n = count as usize;
    if access_limits::bad_access(access_limits::READ_LIMIT, address, n) {
        return contracts::reply(Answer::BadAccess, w);
    }
    if buffer.len() < n {
        return contracts::reply(Answer::ShortBuffer, w);
    }
    access_reads::read(image, address, count, buffer);
    show_flags(image, w, address, n);
    flags_interrupt::settle(image);
    contracts::reply(Answer::Done, w)
}
