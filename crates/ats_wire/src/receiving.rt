//! Fills a buffer from a link.

ghost use Rattle.std.specs.Prelude.{◌<◌, ℕ, slice_index};
ghost use Rattle.ats_wire.specs.Inner.Moving.{Fills};

use ats_base::Link;

/// How a buffer was filled.
pub(crate) enum Filling {
    Whole,
    /// The input ended after this many bytes, fewer than the buffer has.
    Ended(usize),
    Broken,
}

/// Reads until the buffer is full, and no byte more.
pub(crate) fn fill<L: Link>(link: &mut L, buf: &mut [u8]) -> Filling
    ensures fills { Fills (L.told link.old) (L.told link.new) buf.new result }
    ensures small { (i : ℕ) → slice_index buf.new i < 256 }
{
    let mut done: usize = 0;
    'reads: while done < buf.len() {
        let Ok(count) = link.read_some(&mut buf[done..]) else {
            return Filling::Broken;
        };
        if count == 0 {
            return Filling::Ended(done);
        }
        done += count;
    }
    Filling::Whole
}
