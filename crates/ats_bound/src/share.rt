//! What one shard of a catalog is asked for.

/// The rows of a catalog's answer that one of its shards has.
#[derive(Clone, Copy, Debug, PartialEq, Eq)]
pub struct Share {
    /// How many rows the shard has.
    pub rows: u32,
    /// The least that such a row scores, and the most that any other document of the shard may score.
    pub floor: u64,
}
