// Nights in pieces.

// Which part of a night file is coming: the header; the image, of which some bytes have come, and the records that the header counts; the records, of which the next has an index; nothing more.
#[derive(Clone, Copy)]
pub enum Phase {
    InHeader,
    InImage { come: u16, records: u32 },
    InRecords { next: u32, records: u32 },
    Over,
}
