// A host read: all its bytes are taken through a window, and then those that a read clears are cleared.
#![tactic(auto)]

ghost use Rattle.std.specs.Prelude.{◌≡◌, true, ◌+◌, ◌-◌, ◌≤◌, ◌<◌, length};
ghost use Rattle.model.specs.Map.{image_length};
ghost use Rattle.model.specs.Pages.{index_of};
ghost use Rattle.model.specs.Access.{cleared_image, half_end};
ghost use Rattle.access_reads.specs.Left.{ReadOut, zeroed};

use model::image::Image;

// Past the last flag byte of page 11h.
const PAST_FLAGS: usize = map::FLAG_BYTES + (map::FLAG_BYTE_COUNT as usize);

// The bytes from one index up to another, cleared.
fn clear_run(image: &mut Image, from: usize, end: usize)
    requires { (from ≤ end) × (end ≤ image_length) }
    ensures { image.new ≡ zeroed (λ k. true) from (end - from) image.old }
{
    image[from..end].fill(0);
}

// Those of n bytes from an index past the module's own flags on that a read clears, cleared: they lie side by side.
fn clear_flags(image: &mut Image, i: usize, n: usize)
    requires { (i + n ≤ image_length) × (9 < i) }
    ensures { image.new ≡ cleared_image image.old i n }
{
    let from = i.max(map::FLAG_BYTES);
    let end = (i + n).min(PAST_FLAGS);
    if from < end {
        clear_run(image, from, end);
    }
}

// Those of n bytes from an index on that a read clears, cleared one by one.
fn clear_each(image: &mut Image, i: usize, n: usize)
    requires { i + n ≤ image_length }
    ensures { image.new ≡ cleared_image image.old i n }
{
    for (k, byte) in image[i..i + n].iter_mut().enumerate() {
        if map::clearing(i + k) {
            *byte = 0;
        }
    }
}

// Those of n bytes from an index on that a read clears, cleared.
fn clear(image: &mut Image, i: usize, n: usize)
    requires { i + n ≤ image_length }
    ensures { image.new ≡ cleared_image image.old i n }
{
    if i <= map::LAST_MODULE_FLAGS {
        clear_each(image, i, n);
    } else {
        clear_flags(image, i, n);
    }
}

// The n bytes at an offset of the half of memory that starts at an index: the window is gone before any is cleared, and a read that touches none of those clears nothing.
fn read_half(image: &mut Image, start: usize, offset: usize, n: usize, buffer: &mut [u8])
    requires { (start + offset + n ≤ image_length) × (n ≤ length buffer.old) }
    ensures { ReadOut image.old (start + offset) n buffer.old image.new buffer.new }
{
    pages_window::take(image, start, offset, n, buffer);
    let i = start + offset;
    if (i <= map::LAST_MODULE_FLAGS) | map::meets_flags(i, n) {
        clear(image, i, n);
    }
}

// A read: count bytes from an address on, into the front of the buffer.
pub fn read(image: &mut Image, address: u8, count: u8, buffer: &mut [u8])
    requires { (address + count ≤ half_end address) × (count ≤ length buffer.old) }
    ensures { ReadOut image.old (index_of image.old address) count buffer.old image.new buffer.new }
{
    let first = address as usize;
    let start = pages::half_start(image, first);
    read_half(
        image,
        start,
        first % map::PAGE_LENGTH,
        count as usize,
        buffer,
    );
}
