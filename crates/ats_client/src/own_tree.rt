//! The strings of one tree or list of an archive.

ghost use Rattle.std.specs.Prelude.{◌≡◌, ℕ, ◌<◌, length};
ghost use Rattle.ats_tree.specs.declared.places.Tree.TheVariants.{List as ListOf};

use ats_commit::OwnStrings;
use ats_hash::Hash32;
use ats_lists::OwnList;
use ats_terms::Query;
use ats_tree::{HashedString, OwnNodes, Place, Tree};
use std::marker::PhantomData;

/// One tree of an archive, whose strings are found by node, or one list, whose strings are found by number.
#[derive(Drop)]
pub(crate) struct OwnTree<'r, H, O> {
    pub(crate) own: &'r O,
    pub(crate) query: &'r Query,
    pub(crate) tree: Tree,
    pub(crate) kind: PhantomData<H>,
    pub ghost asked: { (term : ℕ) → tree ≡ ListOf term → term < length query.now },
}

impl<H: Hash32, O: OwnStrings<H>> OwnNodes<HashedString> for OwnTree<'_, H, O> {
    ghost use Rattle.ats_tree.specs.Nodes.{numbers_of};
    ghost use Rattle.ats_commit.specs.Ours.{ours};
    ghost use Rattle.ats_commit.specs.Places.{in_tree};

    ghost ours = { λ s node. ours H.hash (O.archive s.own.now) s.query.now (in_tree s.tree (numbers_of node)) };

    fn at(&self, depth: u8, turns: u32) -> Option<HashedString> {
        OwnList::at(self, depth, turns)
    }
}

impl<H: Hash32, O: OwnStrings<H>> OwnList for OwnTree<'_, H, O> {
    ghost use Rattle.ats_commit.specs.Ours.{ours};
    ghost use Rattle.ats_commit.specs.Places.{in_tree};

    ghost ours = { λ s at. ours H.hash (O.archive s.own.now) s.query.now (in_tree s.tree at) };

    fn at(&self, depth: u8, turns: u32) -> Option<HashedString> {
        let place = Place {
            tree: self.tree,
            depth,
            turns,
        };
        self.own.hashed_string(&place, self.query)
    }
}
