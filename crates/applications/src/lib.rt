// Looking up Applications: what the descriptor of an AppSel says, and whether it is there at all.
#![tactic(auto)]

ghost use Rattle.std.specs.Prelude.{◌≡◌, ◌≤◌, ◌<◌, ◌+◌, eqb, not, get_or};
ghost use Rattle.model.specs.Applications.{descriptor_at, list_reaches, lookup};

use model::application::Descriptor;
use model::image::Image;
use model::lane::LaneRecord;

// Lower 86: where descriptor 1 stands.
const DESCRIPTORS: usize = 86;

// 01h:223: where the first descriptor on page 01h stands, and its number.
const MORE_DESCRIPTORS: usize = 351;

const FIRST_ON_PAGE: u8 = 9;

// The bytes of a descriptor.
const SIZE: usize = 4;

// How many descriptors there are.
const COUNT: u8 = 15;

// What a descriptor that ends the list begins with.
const END: u8 = 255;

// Where the descriptor of an Application begins.
fn descriptor_at(app: u8) -> usize
    requires { 1 ≤ app }
    ensures { result ≡ descriptor_at app }
{
    if app < FIRST_ON_PAGE {
        return DESCRIPTORS + SIZE * ((app - 1) as usize);
    }
    MORE_DESCRIPTORS + SIZE * ((app - FIRST_ON_PAGE) as usize)
}

// Whether the descriptor after a number of others does not end the list: it does not begin with FFh.
fn goes_on(image: &Image, before: u8) -> bool
    requires { before < 15 }
    ensures { result ≡ not (eqb (get_or image.now (descriptor_at (before + 1)) 0) 255) }
{
    image[descriptor_at(before + 1)] != END
}

// Whether no descriptor from 1 to app begins with FFh.
fn list_reaches(image: &Image, app: u8) -> bool
    requires { app ≤ 15 }
    ensures { result ≡ list_reaches image.now app }
{
    (0..app).all(|before| goes_on(image, before))
}

// The descriptor of an Application, if it is present.
pub fn look_up(image: &Image, app: u8) -> Option<Descriptor>
    ensures { result ≡ lookup image.now app }
{
    if app == 0 {
        return None;
    }
    if COUNT < app {
        return None;
    }
    let at = descriptor_at(app);
    let reaches = list_reaches(image, app);
    let count = bits::take_field(image[at + 2], 4, 4);
    if reaches & (1 <= count) & (count <= LaneRecord::COUNT) {
        let firsts = image[at + 3];
        return Some(Descriptor { count, firsts });
    }
    None
}
