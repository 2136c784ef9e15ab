//! The place of a term among sorted terms, or the gap where it is missing.

/// The place of a term among terms in byte order. Positions count from 0 and include the sentinels.
#[derive(Clone, Copy, Debug, PartialEq, Eq)]
pub enum Spot {
    /// The term is at this position.
    At(u32),
    /// The term is at no position, and lies strictly between the terms of this position and the next.
    Between(u32),
}
