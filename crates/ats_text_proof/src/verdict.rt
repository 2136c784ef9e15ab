//! What an audit of a text finds.

use ats_base::Bytes;
use ats_grammar::ShapeFault;
use ats_text_check::TextRefusal;

/// Two different strings with equal digests: the archive's own at a place, and the one that the check hashes there.
#[derive(Drop)]
pub struct TextClash {
    /// Whether the strings are the headers, each after the tag of its format. Depth and turns are then 0.
    pub header: bool,
    /// How many turns lead from the root of the texts tree to the node.
    pub depth: u8,
    /// The turns: the `depth` lowest binary digits, highest first, 0 for left and 1 for right. The other digits are 0.
    pub turns: u32,
    /// The archive's own string.
    pub ours: Bytes,
    /// The string that the check hashes.
    pub theirs: Bytes,
}

/// What an audit of a text finds.
#[derive(Drop)]
pub enum TextVerdict {
    /// The bytes give no text.
    BadShape(ShapeFault),
    /// The first rule that does not hold.
    Refused(TextRefusal),
    /// The text is the archive's own.
    Right,
    /// The text is accepted, and the check hashes a string that differs from the archive's own and has its digest. This
    /// is the first such string, from the header and the root of the texts tree down, and the text may be another one.
    Collision(TextClash),
}
