// A window on a half of memory: it holds the lent image and where the half starts, and serves reads. Its read is thin: `take_in` does the work.
#![tactic(auto)]

ghost use Rattle.std.specs.Prelude.{◌≡◌, false, ◌+◌, ◌^◌, ◌≤◌, ◌<◌, length};
ghost use Rattle.model.specs.Access.{shown_byte, taken_bytes};
ghost use Rattle.model.specs.Outcome.{laid_over};
ghost use Rattle.pages_window.specs.Hidden.{meets_hidden};

#[derive(Drop)]
pub struct Window<'a> {
    pub image: &'a [u8],
    pub start: usize,
}

// What a read shows of a byte: the triggers and SoftwareReset read as 0.
fn shown(image: &[u8], i: usize) -> u8
    requires { i < length image.now }
    ensures { result ≡ shown_byte image.now i }
{
    let v = image[i];
    match map_triggers::trigger_at(i) {
        None => map::without_reset(i, v),
        Some(_) => 0,
    }
}

// Whether one of n bytes from i on may show otherwise than it is stored: lower 26, and the triggers.
fn meets_hidden(i: usize, n: usize) -> bool
    requires { i + n < 2 ^ 64 }
    ensures { result ≡ meets_hidden i n }
{
    (i <= map::MODULE_CONTROLS) | map_triggers::meets_triggers(i, n)
}

// Bytes from an index on, each as a read shows it, into the front of the buffer.
fn take_shown(image: &[u8], first: usize, count: usize, buffer: &mut [u8])
    requires { (first + count ≤ length image.now) × (count ≤ length buffer.old) }
    ensures { buffer.new ≡ laid_over (taken_bytes image.now first count) buffer.old }
{
    for (k, byte) in buffer[..count].iter_mut().enumerate() {
        *byte = shown(image, first + k);
    }
}

// Bytes from an index on that show as they are stored, into the front of the buffer.
fn take_stored(image: &[u8], first: usize, count: usize, buffer: &mut [u8])
    requires { (first + count ≤ length image.now) × (count ≤ length buffer.old) × (meets_hidden first count ≡ false) }
    ensures { buffer.new ≡ laid_over (taken_bytes image.now first count) buffer.old }
{
    for (k, byte) in buffer[..count].iter_mut().enumerate() {
        *byte = image[first + k];
    }
}

// The bytes at an offset from a start, as a read shows them, into the front of the buffer.
fn take_in(image: &[u8], start: usize, offset: usize, count: usize, buffer: &mut [u8])
    requires { (start + offset + count ≤ length image.now) × (count ≤ length buffer.old) }
    ensures { buffer.new ≡ laid_over (taken_bytes image.now (start + offset) count) buffer.old }
{
    let first = start + offset;
    if meets_hidden(first, count) {
        take_shown(image, first, count, buffer);
    } else {
        take_stored(image, first, count, buffer);
    }
}

impl<'a> Window<'a> {
    // The window on the half of memory at a start: nothing is copied.
    fn new(image: &'a [u8], start: usize) -> Window<'a>
        ensures { (result.image ≡ image.entry) × (result.start ≡ start) }
    {
        Window { image, start }
    }

    // The bytes at an offset of the window, into the front of the buffer.
    fn take(self, offset: usize, count: usize, buffer: &mut [u8])
        requires { (self.start + offset + count ≤ length self.image.now) × (count ≤ length buffer.old) }
        ensures { buffer.new ≡ laid_over (taken_bytes self.entry.image.now (self.entry.start + offset) count) buffer.old }
    {
        take_in(self.image, self.start, offset, count, buffer)
    }
}

// The same read with plain parameters, for every caller that holds no window.
pub fn take(image: &[u8], start: usize, offset: usize, count: usize, buffer: &mut [u8])
    requires { (start + offset + count ≤ length image.now) × (count ≤ length buffer.old) }
    ensures { buffer.new ≡ laid_over (taken_bytes image.now (start + offset) count) buffer.old }
{
    Window::new(image, start).take(offset, count, buffer)
}
