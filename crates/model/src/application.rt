// Applications, as the descriptors advertise them.

// How many host lanes an Application takes, and on which lanes it may begin, a bit each.
#[derive(Clone, Copy)]
pub struct Descriptor {
    pub count: u8,
    pub firsts: u8,
}
