//! Why bytes are no proof, or no file of another format.

/// What is wrong with bytes.
#[derive(Clone, Copy, Debug, PartialEq, Eq)]
pub enum ShapeKind {
    /// There are too many bytes: of a proof, more than 67,108,864.
    Long,
    /// A field passes the end.
    Cut,
    /// The first four bytes are not those of the format: of a proof, `ATSP`.
    Magic,
    /// The version of the proof is neither 1 nor 2, or that of the header is not 1.
    Version,
    /// The algorithm is neither 1 nor 2.
    Algorithm,
    /// A count, a length or the kind of a slot is out of its range.
    Count,
    /// A position, an index or a document's number does not rise as it must.
    Order,
    /// Bytes follow the last field.
    Trailing,
}

/// The first place where bytes are wrong, and how.
#[derive(Clone, Copy, Debug, PartialEq, Eq)]
pub struct ShapeFault {
    /// The place of the first byte of the field, or of the first byte too many.
    pub at: u64,
    /// What is wrong there.
    pub kind: ShapeKind,
}
