//! Why a growth is refused.

/// The first rule that a growth breaks, in this order.
#[derive(Clone, Copy, Debug, PartialEq, Eq)]
pub enum GrowthRefusal {
    /// The old header does not hash to the old root.
    OtherOld,
    /// The new header does not hash to the new root.
    OtherNew,
    /// There are fewer documents than before.
    Shrunk { old: u32, new: u32 },
    /// The digests are not as many as the two numbers of documents need.
    GrowthMisfit { digests: u32 },
    /// The digests do not give the root of the old texts.
    OldTexts,
    /// The digests do not give the root of the new texts.
    NewTexts,
}
