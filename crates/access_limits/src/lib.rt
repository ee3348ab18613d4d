// Which accesses of a host are allowed: how many bytes, and where they end.
#![tactic(auto)]

ghost use Rattle.std.specs.Prelude.{◌≡◌, ◌<◌};
ghost use Rattle.model.specs.Access.{half_end, is_bad_access};

// The most bytes of one access.
pub const WRITE_LIMIT: usize = 8;

pub const READ_LIMIT: usize = 128;

// The end of the half of memory that an address lies in.
fn half_end(address: u8) -> usize
    ensures { result ≡ half_end address }
{
    if address < map::UPPER {
        return 128;
    }
    256
}

// Whether an access has no bytes, more than the limit, or bytes past the end of its own half.
pub fn bad_access(limit: usize, address: u8, count: usize) -> bool
    ensures { result ≡ is_bad_access limit address count }
{
    let room = half_end(address) - (address as usize);
    (count == 0) | (limit < count) | (room < count)
}
