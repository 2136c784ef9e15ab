//! Bounds between which a row of a shard of a catalog scores.

/// The least and the most that one row of a shard may score.
#[derive(Clone, Copy, Debug, PartialEq, Eq)]
pub struct Span {
    pub lower: u64,
    pub upper: u64,
}
