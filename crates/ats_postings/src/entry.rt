//! One posting.

/// A document, counted from 0, that has a term, with the term's impact there, from 1 to 2,200.
#[derive(Clone, Copy, Debug, PartialEq, Eq)]
pub struct Entry {
    pub doc: u32,
    pub impact: u16,
}
