//! What an audit of a growth finds.

use ats_base::Bytes;
use ats_grammar::ShapeFault;
use ats_growth_check::{Grown, GrowthRefusal};

/// What an audit of a growth against two archives finds.
#[derive(Drop)]
pub enum GrowthVerdict {
    /// The bytes show no growth.
    BadShape(ShapeFault),
    /// The first rule that the growth breaks.
    Refused(GrowthRefusal),
    /// Nothing was withdrawn.
    Right(Grown),
    /// The growth is accepted, and these two different strings have equal digests. They are the first pair of such strings
    /// at one place, in five parts: the growth's old header and that of the old archive (1), the new headers (2), the
    /// strings of the new root and of the new texts (3), those of the old root and of the old texts (4), and those of the
    /// old texts and of the new texts in the ranges that both have (5). A text may have been withdrawn.
    Collision {
        part: u8,
        first: Bytes,
        second: Bytes,
    },
}
