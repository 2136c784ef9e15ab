//! One list of a query.

ghost use Rattle.std.specs.Prelude.{◌≡◌, ◌≤◌, length, slice_index_or};

use ats_postings::Entry;

/// A present term of a query: its coefficient, from 1 to 34,935, and its whole list or the first entries
/// of it, by impact descending.
#[derive(Clone, Copy, Debug)]
pub struct Lane<'a> {
    pub coefficient: u32,
    pub entries: &'a [Entry],
}

impl Lane<'_> {
    /// The document that the first entry names.
    pub fn first_document(&self) -> u32
        requires { 1 ≤ length self.now.entries.now }
        ensures { result ≡ (slice_index_or self.now.entries.now 0 (record { doc = 0; impact = 0 })).doc }
    {
        self.entries[0].doc
    }
}
