ghost use Rattle.std.specs.Prelude.{◌≡◌, ◌+◌, ◌≤◌, length, take, drop};
ghost use Rattle.collection_model.specs.Bytes.{le32};

use byteorder::{ByteOrder, LittleEndian};

/// The number that the four bytes at a place are, the lowest first.
pub fn number_at(bytes: &[u8], at: usize) -> u32
    requires { at + 4 ≤ length bytes.now }
    ensures { le32 result ≡ take 4 (drop at bytes.now) }
{
    LittleEndian::read_u32(&bytes[at..])
}
