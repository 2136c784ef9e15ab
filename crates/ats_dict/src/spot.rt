//! Where a term stands, or would stand.

/// Where a term stands among the leaves of the dictionary. Positions count from 0 and include the sentinels.
#[derive(Clone, Copy, Debug, PartialEq, Eq)]
pub enum Spot {
    /// The term stands at this position.
    At(u32),
    /// The term stands nowhere, and lies strictly between the term at this position and the next.
    Between(u32),
}
