//! The strings of an index's own trees, by their places.

ghost use Rattle.std.specs.Prelude.{◌≡◌, ◌↔◌, ◌^◌, ◌≤◌, [], length, map, All, IsTrue};
ghost use Rattle.ats_tree.specs.OwnShown.{IsOwnShown};
ghost use Rattle.ats_tree.specs.declared.places.Tree.TheVariants.{Header as HeaderTree, Documents as DocumentsTree, Terms as TermsTree};
ghost use Rattle.ats_lists.specs.Formats.{list_string};
ghost use Rattle.ats_postings.specs.Lists.{list};
ghost use Rattle.ats_commit.specs.OwnShown.{IsOwnListShown};
ghost use Rattle.ats_commit.specs.Ours.{own_leaves, own_string, ours};
ghost use Rattle.ats_commit.specs.Places.{numbers_at, IsOfQuery};
ghost use Rattle.ats_commit.specs.Trees.{documents_of};

use crate::fronts::list_has_shown;
use crate::index::Index;
use ats_commit::{DocLeaves, OwnStrings, string_of_header};
use ats_hash::{Hash32, Steps};
use ats_lists::Format;
use ats_terms::Query;
use ats_tree::{HashedString, PartialTree, Place, Tree};

impl<H: Hash32> Index<H> {
    /// The string at a place in the archive's own trees. There is none if the turns leave the tree, if no text has the
    /// term, or if the document's number is past the last. It allocates nothing.
    pub fn hashed_string(&self, place: &Place, query: &Query) -> Option<HashedString>
        requires shallow { place.now.depth ≤ 32 }
        requires asked { IsOfQuery query.now place.now.tree }
        ensures { result ≡ ours H.hash self.now query.now place.now }
    {
        match place.tree {
            Tree::Header => self.header_string(place),
            Tree::Dictionary => {
                let leaves = self.dictionary();
                self.dict_nodes()
                    .string_at::<H, _>(leaves, place.depth, place.turns)
            }
            Tree::List { term } => self.list_string(query.term(term as usize), place),
            Tree::Documents => self.documents_string(place),
            Tree::Terms { doc } => self.terms_string(doc, place),
        }
    }

    // The header is one string.
    fn header_string(&self, place: &Place) -> Option<HashedString>
        ensures { result ≡ own_string H.hash self.now [] HeaderTree (numbers_at place.now) }
    {
        if place.depth > 0 {
            return None;
        }
        Some(string_of_header(self.format(), self.header()))
    }

    // A string of a term's list.
    fn list_string(&self, term: &[u8], place: &Place) -> Option<HashedString>
        requires { place.now.depth ≤ 32 }
        ensures { result ≡ list_string H.hash self.now.format (list self.now.texts term.now)
            (numbers_at place.now) }
    {
        let lists = self.lists();
        match lists.find(term) {
            Some(i) => {
                let digests = self.list_digests(i);
                digests.string_at::<H>(lists.list(i), place.depth, place.turns)
            }
            None => None,
        }
    }

    // A string of the tree of all documents.
    fn documents_string(&self, place: &Place) -> Option<HashedString>
        requires { place.now.depth ≤ 32 }
        ensures { result ≡ own_string H.hash self.now [] DocumentsTree (numbers_at place.now) }
    {
        let leaves = DocLeaves {
            leaves: self.doc_leaves(),
        };
        self.docs_nodes()
            .string_at::<H, _>(&leaves, place.depth, place.turns)
    }

    // A string of the tree of a document's terms.
    fn terms_string(&self, doc: u32, place: &Place) -> Option<HashedString>
        requires { place.now.depth ≤ 32 }
        ensures { result ≡ own_string H.hash self.now [] (TermsTree doc) (numbers_at place.now) }
    {
        if doc >= self.collection().documents() {
            return None;
        }
        let leaves = self.doc_terms(doc);
        self.doc_nodes(doc)
            .string_at::<H, _>(leaves, place.depth, place.turns)
    }

    // Whether what is shown is of a term's list.
    fn has_entries<S: PartialTree>(
        &self,
        term: &[u8],
        n: u32,
        shown: &mut S,
        steps: &mut Steps,
    ) -> bool
        requires short { All (λ s. length s.1 ≤ 127) (S.shown shown.old) }
        requires space { steps.old ≤ 2 ^ 63 }
        ensures { IsTrue result ↔ IsOwnListShown H.hash self.now.format (list self.now.texts term.now) n
            (S.shown shown.old) (S.digests shown.old) }
    {
        let lists = self.lists();
        match lists.find(term) {
            Some(i) => list_has_shown::<H, S>(self.list_digests(i), lists.list(i), n, shown, steps),
            None => false,
        }
    }

    // Whether what is shown is of the tree of all documents.
    fn has_documents<S: PartialTree>(&self, n: u32, shown: &mut S, steps: &mut Steps) -> bool
        requires short { All (λ s. length s.1 ≤ 127) (S.shown shown.old) }
        requires space { steps.old ≤ 2 ^ 63 }
        ensures { IsTrue result ↔ IsOwnShown H.hash (documents_of H.hash self.now.texts) n
            (S.shown shown.old) (S.digests shown.old) }
    {
        let leaves = DocLeaves {
            leaves: self.doc_leaves(),
        };
        self.docs_nodes()
            .has_shown::<H, _, S>(&leaves, n, shown, steps)
    }

    // Whether what is shown is of the tree of a document's terms.
    fn has_terms<S: PartialTree>(&self, doc: u32, n: u32, shown: &mut S, steps: &mut Steps) -> bool
        requires short { All (λ s. length s.1 ≤ 127) (S.shown shown.old) }
        requires space { steps.old ≤ 2 ^ 63 }
        ensures { IsTrue result ↔ IsOwnShown H.hash (own_leaves H.hash self.now [] (TermsTree doc)) n
            (S.shown shown.old) (S.digests shown.old) }
    {
        if doc < self.collection().documents() {
            let leaves = self.doc_terms(doc);
            self.doc_nodes(doc)
                .has_shown::<H, _, S>(leaves, n, shown, steps)
        } else {
            false
        }
    }
}

impl<H: Hash32> OwnStrings<H> for Index<H> {
    ghost archive = { λ archive. archive };

    fn hashed_string(&self, place: &Place, query: &Query) -> Option<HashedString> {
        Index::<H>::hashed_string(self, place, query)
    }

    fn has_shown<S: PartialTree>(
        &self,
        format: Format,
        tree: Tree,
        n: u32,
        query: &Query,
        shown: &mut S,
    ) -> bool {
        let mut steps = Steps::new(self.alloc);
        match tree {
            Tree::Header => false,
            Tree::Dictionary => {
                let leaves = self.dictionary();
                self.dict_nodes()
                    .has_shown::<H, _, S>(leaves, n, shown, &mut steps)
            }
            Tree::List { term } => {
                if format != self.format() {
                    return false;
                }
                self.has_entries(query.term(term as usize), n, shown, &mut steps)
            }
            Tree::Documents => self.has_documents(n, shown, &mut steps),
            Tree::Terms { doc } => self.has_terms(doc, n, shown, &mut steps),
        }
    }
}
