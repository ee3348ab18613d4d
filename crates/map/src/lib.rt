// The register map in code: where each page and each lane register starts, and which bytes of the image keep a write, are cleared by a read, or are kept by start.
#![tactic(auto)]

ghost use Rattle.std.specs.Prelude.{◌≡◌, ◌+◌, ◌≤◌, ◌<◌, leb, ltb};
ghost use Rattle.bits.specs.Choice.{both};
ghost use Rattle.model.specs.Map.{image_length, page_length, on, flag_bytes, flag_byte_count, lasting_count, lasting_flag, lasting_index, writable, clearing, kept};
ghost use Rattle.model.specs.Access.{without_reset};

// A page's bytes; its addresses start at UPPER.
pub const PAGE_LENGTH: usize = 128;

pub const UPPER: u8 = 128;

// Where each page starts in the image.
pub const PAGE_00: usize = 128;

pub const PAGE_01: usize = 256;

pub const PAGE_02: usize = 384;

pub const PAGE_10: usize = 512;

pub const PAGE_11: usize = 640;

pub const PAGE_9F: usize = 768;

// Lower 3: the module's state, with InterruptDeasserted in bit 0. Lower 8 and 9: its own flags.
pub const MODULE_STATE: usize = 3;

pub const MODULE_FLAGS: usize = 8;

pub const LAST_MODULE_FLAGS: usize = 9;

// Lower 26: controls of the whole module, with SoftwareReset in bit 3.
pub const MODULE_CONTROLS: usize = 26;

pub const SOFTWARE_RESET: u8 = 3;

// Page 02h: the limits of received power, two bytes each, in 0.1 µW.
pub const HIGH_ALARM: usize = PAGE_02 + (192 - 128);

pub const LOW_ALARM: usize = PAGE_02 + (194 - 128);

pub const HIGH_WARNING: usize = PAGE_02 + (196 - 128);

pub const LOW_WARNING: usize = PAGE_02 + (198 - 128);

// Page 10h: DPDeinit, OutputDisableTx and OutputSquelchForceTx, a bit a lane.
pub const DEINIT: usize = PAGE_10 + (128 - 128);

pub const OUTPUT_DISABLE: usize = PAGE_10 + (130 - 128);

pub const SQUELCH_FORCE: usize = PAGE_10 + (132 - 128);

// Page 11h: DPState, a nibble a lane; DPStateChanged, a bit a lane; ConfigStatus, a nibble a lane; the active settings; DPInitPending, a bit a lane.
pub const STATES: usize = PAGE_11 + (128 - 128);

pub const STATE_CHANGED: usize = PAGE_11 + (134 - 128);

// .. its flag bytes: where they start in the image, and how many there are.
pub const FLAG_BYTES: usize = PAGE_11 + (134 - 128);

pub const FLAG_BYTE_COUNT: u8 = 20;

// .. the flags that can last, counted from 0: the address of each of the first, those of Tx, is FIRST_LASTING and its number, of each other, those of Rx, LATER_LASTING
// and its number.
pub const LASTING_COUNT: u8 = 10;

const TX_LASTING_COUNT: u8 = 4;

pub const FIRST_LASTING: u8 = 135;

pub const LATER_LASTING: u8 = 143;

const FIRST_RX_LASTING: u8 = LATER_LASTING + TX_LASTING_COUNT;

pub const STATUSES: usize = PAGE_11 + (202 - 128);

pub const ACTIVE_SET: usize = PAGE_11 + (206 - 128);

pub const PENDING: usize = PAGE_11 + (235 - 128);

// The index in the image of an address of a page.
pub fn on(page: usize, address: u8) -> usize
    requires { (page + page_length ≤ image_length) × (128 ≤ address) }
    ensures { result ≡ on page address }
{
    page + ((address - UPPER) as usize)
}

// The address of a flag that can last: 135 to 138, then 147 to 152.
pub fn lasting_flag(k: u8) -> u8
    requires { k < lasting_count }
    ensures { result ≡ lasting_flag k }
{
    if k < TX_LASTING_COUNT {
        FIRST_LASTING + k
    } else {
        LATER_LASTING + k
    }
}

// .. and which of them stands at an address.
pub fn lasting_index(flag: u8) -> u8
    requires { (135 ≤ flag) × (flag ≤ 152) }
    ensures { result ≡ lasting_index flag }
{
    if flag < FIRST_RX_LASTING {
        flag - FIRST_LASTING
    } else {
        flag - LATER_LASTING
    }
}

// Whether one of n bytes from an index on is a flag byte of page 11h.
pub fn meets_flags(i: usize, n: usize) -> bool
    requires { i + n ≤ image_length }
    ensures { result ≡ both (ltb i (flag_bytes + flag_byte_count)) (ltb flag_bytes (i + n)) }
{
    (i < FLAG_BYTES + (FLAG_BYTE_COUNT as usize)) & (FLAG_BYTES < i + n)
}

// Whether an index is one of from .. to.
pub fn within(i: usize, from: usize, to: usize) -> bool
    ensures { result ≡ both (leb from i) (leb i to) }
{
    (from <= i) & (i <= to)
}

// Whether an index is one of the addresses from .. to of a page.
pub fn on_page(i: usize, page: usize, from: u8, to: u8) -> bool
    requires { (page + page_length ≤ image_length) × (128 ≤ from) × (128 ≤ to) }
    ensures { result ≡ both (leb (on page from) i) (leb i (on page to)) }
{
    within(i, on(page, from), on(page, to))
}

// Whether a byte keeps what a host writes to it. The compiler asks the last test first, so the staged settings stand last.
pub fn writable(i: usize) -> bool
    ensures { result ≡ writable i }
{
    on_page(i, PAGE_9F, 128, 255)
        | within(i, 26, 26)
        | within(i, 31, 36)
        | within(i, 126, 126)
        | on_page(i, PAGE_10, 128, 132)
        | on_page(i, PAGE_10, 137, 139)
        | on_page(i, PAGE_10, 213, 232)
        | on_page(i, PAGE_10, 191, 208)
        | on_page(i, PAGE_10, 180, 188)
        | on_page(i, PAGE_10, 156, 173)
        | on_page(i, PAGE_10, 145, 153)
}

// A byte written to an index, or shown of it, without SoftwareReset, which is neither stored nor shown.
pub fn without_reset(i: usize, v: u8) -> u8
    ensures { result ≡ without_reset i v }
{
    if i == MODULE_CONTROLS {
        return bits::put_field(v, SOFTWARE_RESET, 1, 0);
    }
    v
}

// Whether a read clears a byte.
pub fn clearing(i: usize) -> bool
    ensures { result ≡ clearing i }
{
    within(i, 8, 9) | on_page(i, PAGE_11, 134, 153)
}

// Whether start keeps a byte.
pub fn kept(i: usize) -> bool
    ensures { result ≡ kept i }
{
    within(i, 0, 2)
        | within(i, 39, 40)
        | within(i, 85, 117)
        | on_page(i, PAGE_00, 128, 255)
        | on_page(i, PAGE_01, 128, 255)
        | on_page(i, PAGE_02, 128, 255)
}
