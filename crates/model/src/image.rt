// The register image.

// Lower memory, then six pages.
pub const IMAGE_LENGTH: usize = 896;

// An image that has its length: what every step works on.
pub type Image = [u8; IMAGE_LENGTH];
