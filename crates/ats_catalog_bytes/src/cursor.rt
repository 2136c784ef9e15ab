//! Going through the shards of a catalog's proof.

ghost use Rattle.std.specs.Prelude.{◌≡◌, ◌≤◌, length, drop, option_map, slice_get};
ghost use Rattle.ats_proof.specs.Parts.{number_in};
ghost use Rattle.ats_catalog_bytes.specs.Bytes.{HaveRoom};

use byteorder::{BigEndian, ByteOrder};

/// What is shown of one shard, lent from the bytes.
#[derive(Clone, Copy)]
pub struct Shard<'a> {
    /// The root of the shard.
    pub root: &'a [u8; 32],
    /// The bytes of its proof.
    pub bytes: &'a [u8],
}

/// The shards that are left: the root of each, and the bytes in which their proofs come one after another, each after its
/// length.
#[derive(Clone, Copy)]
pub struct ShardCursor<'a> {
    pub(crate) roots: &'a [[u8; 32]],
    pub(crate) proofs: &'a [u8],
    pub ghost few: { length roots.now ≤ 4096 },
    pub ghost room: { HaveRoom roots.now proofs.now },
}

// The length of the proof at the front of bytes.
fn length_of(bytes: &[u8]) -> u32
    requires { 4 ≤ length bytes.now }
    ensures { result ≡ number_in 4 bytes.now }
{
    BigEndian::read_u32(bytes)
}

impl<'a> ShardCursor<'a> {
    ghost use Rattle.ats_catalog_bytes.specs.Seen.{shards_left, framed_of};

    /// Removes and returns the first shard left, `None` if none is left.
    pub fn pass(&mut self) -> Option<Shard<'a>>
        ensures first { option_map framed_of result ≡ slice_get (shards_left self.old) 0 }
        ensures passed { shards_left self.new ≡ drop 1 (shards_left self.old) }
    {
        let (root, roots) = self.roots.split_first()?;
        let size = length_of(self.proofs) as usize;
        let (_, rest) = self.proofs.split_at(4);
        let (bytes, proofs) = rest.split_at(size);
        *self = ShardCursor { roots, proofs };
        Some(Shard { root, bytes })
    }

    /// How many shards are left.
    pub fn len(&self) -> u32
        ensures { result ≡ length (shards_left self.now) }
    {
        self.roots.len() as u32
    }
}
