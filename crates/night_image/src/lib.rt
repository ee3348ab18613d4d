// The image that a night file carries: its bytes, laid out at today's length.
#![tactic(auto)]

ghost use Rattle.std.specs.Prelude.{◌≡◌, ◌≤◌, length, take};
ghost use Rattle.model.specs.Map.{image_length};
ghost use Rattle.model.specs.File.{laid_out};

use model::image::Image;

// Zeros in an image from a byte on: those before it are laid out at today's length.
pub fn clear_rest(image: &mut Image, n: usize)
    requires { n ≤ image_length }
    ensures { image.new ≡ laid_out (take n image.old) }
{
    image[n..].fill(0);
}

// The bytes that a file carries of its image, laid out at today's length.
pub fn lay_out(carried: &[u8], image: &mut Image)
    requires { length carried.now ≤ image_length }
    ensures { image.new ≡ laid_out carried.now }
{
    image[..carried.len()].copy_from_slice(carried);
    clear_rest(image, carried.len())
}
