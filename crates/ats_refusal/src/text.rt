//! Why a text is refused.

/// The first rule that does not hold.
#[derive(Clone, Copy, Debug, PartialEq, Eq)]
pub enum TextRefusal {
    /// The header does not have the root, under the tag of its format.
    OtherRoot,
    /// The archive has only this many documents.
    DocOut { documents: u32 },
    /// This is not the number of digests that the text of the document needs.
    TextMisfit { digests: u32 },
    /// The text and the digests rebuild another root of the texts than the header has.
    TextRoot,
}
