// A host write: bytes in address order, the upper half on the page selected by then.
#![tactic(auto)]

ghost use Rattle.std.specs.Prelude.{◌≡◌, ◌+◌, ◌^◌, ◌≤◌, ◌<◌, length, set};
ghost use Rattle.bits.specs.Choice.{pick};
ghost use Rattle.model.specs.Map.{writable, image_length};
ghost use Rattle.model.specs.Pages.{index_of};
ghost use Rattle.model.specs.Access.{stored_state, byte_written_state, bytes_written_state, half_end};
ghost use Rattle.contracts.specs.Forms.{IsState};
ghost use Rattle.model.specs.State.{state_with};
ghost use Rattle.access_writes.specs.Puts.{is_plain, byte_put, bytes_put};

use model::image::Image;
use model::lane::Working;

// A byte of a page's 128, which are lent as a part of the image.
fn store_on_page(page: &mut [u8], offset: usize, v: u8)
    requires { offset < length page.old }
    ensures { page.new ≡ set page.old offset v }
{
    page[offset] = v;
}

// A byte of the 128 that start at an index of the image: stored if it is writable.
fn store(image: &mut Image, start: usize, offset: usize, v: u8)
    requires { (start + 128 ≤ image_length) × (offset < 128) }
    ensures { image.new ≡ pick (writable (start + offset)) (set image.old (start + offset) v) image.old }
{
    if map::writable(start + offset) {
        let end = start + map::PAGE_LENGTH;
        store_on_page(&mut image[start..end], offset, v);
    }
}

// A byte put at one of the 128 bytes from a start on, which is no trigger's and has no SoftwareReset.
fn put_byte(image: &mut Image, start: usize, offset: usize, v: u8)
    requires { (start + 128 ≤ image_length) × (offset < 128) }
    ensures { image.new ≡ byte_put (start + offset) v image.old }
{
    if start + offset == pages::PAGE_SELECT {
        pages::select_page(image, v);
    } else {
        store(image, start, offset, v);
    }
}

// A byte written to one of the 128 bytes from a start on.
fn write_at(image: &mut Image, w: Working, start: usize, offset: usize, v: u8) -> Working
    requires { (start + 128 ≤ image_length) × (offset < 128) }
    ensures { IsState (stored_state (start + offset) v (state_with image.old w)) image.new result }
{
    let i = start + offset;
    match map_triggers::trigger_at(i) {
        None => {
            put_byte(image, start, offset, map::without_reset(i, v));
            w
        }
        Some(apply) => apply_triggers::trigger(image, w, apply.trigger, apply.set, v),
    }
}

// A byte written to an address.
fn write_byte(image: &mut Image, w: Working, address: usize, v: u8) -> Working
    requires { address < 256 }
    ensures { IsState (byte_written_state address v (state_with image.old w)) image.new result }
{
    let start = pages::half_start(image, address);
    write_at(image, w, start, address % map::PAGE_LENGTH, v)
}

// A write, whatever its bytes touch: the lanes' records go along.
pub fn write_each(image: &mut Image, w: Working, address: u8, bytes: &[u8]) -> Working
    requires { address + length bytes.now ≤ half_end address }
    ensures { IsState (bytes_written_state address bytes.now (state_with image.old w)) image.new result }
{
    let mut next = w;
    for i in 0..bytes.len() {
        next = write_byte(image, next, (address as usize) + i, bytes[i]);
    }
    next
}

// Whether a write of n bytes from an address on meets neither a trigger nor lower 26: its bytes are then put and no more.
fn is_plain(image: &Image, address: u8, n: usize) -> bool
    requires { n < 2 ^ 32 }
    ensures { result ≡ is_plain (index_of image.now address) n }
{
    let first = address as usize;
    let i = pages::half_start(image, first) + first % map::PAGE_LENGTH;
    !(map_triggers::meets_triggers(i, n) | (i <= map::MODULE_CONTROLS))
}

// The same of a write that ends in its own half of memory: in lower memory it meets no trigger.
pub fn is_plain_write(image: &Image, address: u8, n: usize) -> bool
    requires { address + n ≤ half_end address }
    ensures { result ≡ is_plain (index_of image.now address) n }
{
    let first = address as usize;
    if first < map::PAGE_LENGTH {
        return map::MODULE_CONTROLS < first;
    }
    is_plain(image, address, n)
}

// The bytes of a plain write: its half of memory starts where it did to the end.
fn put_bytes(image: &mut Image, start: usize, offset: usize, bytes: &[u8])
    requires { (start + 128 ≤ image_length) × (offset + length bytes.now ≤ 128) }
    ensures { image.new ≡ bytes_put (start + offset) bytes.now image.old }
{
    for i in 0..bytes.len() {
        put_byte(image, start, offset + i, bytes[i]);
    }
}

// A plain write: its bytes, from an address on. The lanes' records have no part in it.
pub fn write_plain(image: &mut Image, address: u8, bytes: &[u8])
    requires { address + length bytes.now ≤ half_end address }
    ensures { image.new ≡ bytes_put (index_of image.old address) bytes.now image.old }
{
    let first = address as usize;
    let start = pages::half_start(image, first);
    put_bytes(image, start, first % map::PAGE_LENGTH, bytes);
}
