// Page selection, and where the half of memory starts that an address lies in.
#![tactic(auto)]

ghost use Rattle.std.specs.Prelude.{◌≡◌};
ghost use Rattle.model.specs.Pages.{page_start, selected_start, index_of, selected_image};
ghost use Rattle.pages.specs.Halves.{half_start};

use model::image::Image;

// 126 BankSelect, 127 PageSelect.
const BANK_SELECT: usize = 126;

pub const PAGE_SELECT: usize = 127;

// Where a page starts in the image, if the module has it: 10h, 11h and 9Fh only in bank 0.
fn page_start(bank: u8, page: u8) -> Option<usize>
    ensures { result ≡ page_start bank page }
{
    if page == 0x00 {
        return Some(map::PAGE_00);
    }
    if page == 0x01 {
        return Some(map::PAGE_01);
    }
    if page == 0x02 {
        return Some(map::PAGE_02);
    }
    if (page == 0x10) & (bank == 0) {
        return Some(map::PAGE_10);
    }
    if (page == 0x11) & (bank == 0) {
        return Some(map::PAGE_11);
    }
    if (page == 0x9f) & (bank == 0) {
        return Some(map::PAGE_9F);
    }
    None
}

// Where the upper half starts now.
fn selected_start(image: &Image) -> usize
    ensures { result ≡ selected_start image.now }
{
    page_start(image[BANK_SELECT], image[PAGE_SELECT]).unwrap_or(map::PAGE_00)
}

// Where the half of memory starts that an address lies in: the upper half lies on the page selected now.
pub fn half_start(image: &Image, address: usize) -> usize
    ensures { result ≡ half_start image.now address }
{
    if address < map::PAGE_LENGTH {
        return 0;
    }
    selected_start(image)
}

// The index in the image of an address that a host names.
pub fn index_of(image: &Image, address: u8) -> usize
    ensures { result ≡ index_of image.now address }
{
    let first = address as usize;
    half_start(image, first) + first % map::PAGE_LENGTH
}

// A byte written to 127.
pub fn select_page(image: &mut Image, page: u8)
    ensures { image.new ≡ selected_image page image.old }
{
    match page_start(image[BANK_SELECT], page) {
        None => {
            image[BANK_SELECT] = 0;
            image[PAGE_SELECT] = 0;
        }
        Some(_) => {
            image[PAGE_SELECT] = page;
        }
    }
}
