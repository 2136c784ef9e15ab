//! Impacts that are looked up.

ghost use Rattle.std.specs.Prelude.{◌≡◌};
ghost use Rattle.ats_bound.specs.Lookup.{Table};

/// Impacts by list and document. If they are those of the lists that are walked, with 0 for a document that a list does
/// not name, they sum to the document's score.
pub trait RandomAccess {
    /// The impact for each number of a list and each document.
    ghost table: { Self → Table };

    /// The impact of a document in a list, by the list's number, counted from 0.
    fn impact(&self, lane: u32, doc: u32) -> u16
        ensures { result ≡ table self.now lane doc };
}
