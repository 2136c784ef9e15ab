//! Parts of a byte string, put one after another.

ghost use Rattle.std.specs.Prelude.{◌≡◌, ◌+◌, ◌≤◌, ◌++◌, length, take};

/// Puts a part after the first `place` bytes.
pub(crate) fn put(bytes: &mut [u8], place: usize, part: &[u8])
    requires { place + length part.now ≤ length bytes.old }
    ensures { take (place + length part.now) bytes.new ≡ take place bytes.old ++ part.now }
{
    bytes[place..place + part.len()].copy_from_slice(part);
}
