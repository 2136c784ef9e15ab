//! The strings of an archive's own trees, by their places.

ghost use Rattle.std.specs.Prelude.{◌≡◌, ◌↔◌, ◌≤◌, length, All, IsTrue};
ghost use Rattle.ats_commit.specs.Archive.{Archive};
ghost use Rattle.ats_commit.specs.Ours.{ours};
ghost use Rattle.ats_commit.specs.OwnShown.{IsOwnTreeShown};
ghost use Rattle.ats_commit.specs.Places.{IsOfQuery};

use ats_hash::Hash32;
use ats_lists::Format;
use ats_terms::Query;
use ats_tree::{HashedString, PartialTree, Place, Tree};

/// An archive, seen as the byte strings that are hashed in its trees.
pub trait OwnStrings<H: Hash32> {
    /// The archive.
    ghost archive: { Self → Archive };

    /// The string at a place in the archive's own trees. There is none if the turns leave the tree, if no text has the
    /// term, or if the document's number is past the last.
    fn hashed_string(&self, place: &Place, query: &Query) -> Option<HashedString>
        requires shallow { place.now.depth ≤ 32 }
        requires asked { IsOfQuery query.now place.now.tree }
        ensures { result ≡ ours H.hash (archive self.now) query.now place.now };

    /// Whether what a proof in this format shows of a tree of `n` leaves is the archive's own: its leaves at their
    /// positions, and the digests of the rest. A list in another format than the archive's is not. It only compares:
    /// nothing is hashed, and no memory is taken. The header is no such tree. How much of `shown` is left afterwards is not said.
    fn has_shown<S: PartialTree>(
        &self,
        format: Format,
        tree: Tree,
        n: u32,
        query: &Query,
        shown: &mut S,
    ) -> bool
        requires asked { IsOfQuery query.now tree }
        requires short { All (λ s. length s.1 ≤ 127) (S.shown shown.old) }
        ensures { IsTrue result ↔ IsOwnTreeShown H.hash (archive self.now) query.now format tree n
            (S.shown shown.old) (S.digests shown.old) };
}
