//! What a proof's records hold, and how many bytes some have.

/// The front of a proof: magic, version, algorithm, header and the number of terms.
pub(crate) const FRONT_BYTES: usize = 113;

/// An entry of a list: the place of its document among the met ones, and the impact.
pub(crate) const ENTRY_BYTES: usize = 6;

/// The part of a dictionary leaf after the term: the number of its documents, and the root of its list.
pub(crate) const DICT_BACK_BYTES: usize = 36;

/// How a proof was made, and so which sections it has.
#[derive(Clone, Copy, Debug, PartialEq, Eq)]
pub enum Algorithm {
    /// The threshold algorithm with random access: the documents show the terms of each.
    Tra,
    /// The threshold algorithm with no random access: only the lists are shown.
    Tnra,
}

/// Where a section of leaves shows a term.
#[derive(Clone, Copy, Debug, PartialEq, Eq)]
pub struct Slot {
    /// Whether the term has a leaf; else it is absent, between two neighbours.
    pub present: bool,
    /// The index of that leaf among the section's, counted from 0; of two neighbours that of the lower one.
    pub index: u16,
}

/// A leaf of the terms of a document. The low sentinel has the empty term, the high one the single byte 0xFF; both have
/// impact 0.
#[derive(Clone, Copy, Debug, PartialEq, Eq)]
pub struct TermLeaf<'a> {
    /// The bytes of the term, at most 64 of them.
    pub term: &'a [u8],
    /// The term's impact in the document.
    pub impact: u16,
}
