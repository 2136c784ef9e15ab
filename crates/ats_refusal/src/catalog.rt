//! Why the proof of a catalog's answer is refused.

use crate::proof::Rejection;

/// The first rule that such a proof breaks, in this order.
#[derive(Clone, Copy, Debug, PartialEq, Eq)]
pub enum CatalogRefusal {
    /// The roots of the shards give another root of the catalog.
    OtherRoot,
    /// The proof of this shard, counted from 0, breaks a rule under the shard's root. Whether its own answer is settled is
    /// none of these rules.
    Shard { shard: u32, rejection: Rejection },
    /// The rows of all shards do not prove the answer right.
    NotSettled,
}
