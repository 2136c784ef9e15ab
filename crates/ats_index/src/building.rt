//! Builds the index of a collection, by one thread or by several.

ghost use Rattle.std.specs.Prelude.{◌≡◌, IfOk};
ghost use Rattle.ats_commit.specs.Archive.{archive_of};
ghost use Rattle.ats_index.specs.Parts.{archive_in};

use crate::dictionary::dictionary_tree;
use crate::doc_leaves::documents_tree;
use crate::documents::counted;
use crate::header::root_of_texts;
use crate::index::Index;
use crate::memory::OutOfMemory;
use crate::parallel::{parts_and_texts, upper_trees};
use ats_hash::Hash32;
use ats_impact::Collection;
use ats_lists::Format;
use std::alloc::Global;
use std::thread::Threads;

impl<H: Hash32> Index<H> {
    /// The index of a collection in which each list is one tree, by one thread. If memory runs out, the collection is
    /// dropped.
    pub fn build_plain(alloc: Global, collection: Collection) -> Result<Self, OutOfMemory>
        ensures { IfOk result (λ index. index ≡ archive_of collection) }
    {
        Index::<H>::build_plain_in(alloc, collection, Format::One)
    }

    // The index of a collection in this format, by one thread.
    fn build_plain_in(
        alloc: Global,
        collection: Collection,
        format: Format,
    ) -> Result<Self, OutOfMemory>
        ensures { IfOk result (λ index. index ≡ archive_in format collection) }
    {
        let parts = counted::<H>(alloc, format, &collection)?;
        let dictionary = dictionary_tree::<H>(alloc, format, &parts.lists, &parts.list_digests)?;
        let documents = documents_tree::<H>(alloc, &collection, &parts.terms, &parts.term_nodes)?;
        let texts_root = root_of_texts::<H>(alloc, &collection);
        Ok(Index::<H>::assembled(
            alloc, format, collection, parts, dictionary, documents, texts_root,
        ))
    }
}

impl<H: Hash32 + Sync> Index<H> {
    /// The index of a collection in which each list is one tree: `build_in` with format One.
    pub fn build(
        rt: &(impl Threads + Sync),
        alloc: Global,
        collection: Collection,
    ) -> Result<Self, OutOfMemory>
        ensures { IfOk result (λ index. index ≡ archive_of collection) }
    {
        Index::<H>::build_in(rt, alloc, collection, Format::One)
    }

    /// The index of a collection with its lists in this format, by as many threads as the machine runs at once. If memory
    /// runs out, the collection is dropped.
    pub fn build_in(
        rt: &(impl Threads + Sync),
        alloc: Global,
        collection: Collection,
        format: Format,
    ) -> Result<Self, OutOfMemory>
        ensures { IfOk result (λ index. index ≡ archive_in format collection) }
    {
        let (parts, texts_root) = parts_and_texts::<H, _>(rt, alloc, format, &collection)?;
        let (dictionary, documents) = upper_trees::<H, _>(rt, alloc, format, &collection, &parts)?;
        Ok(Index::<H>::assembled(
            alloc, format, collection, parts, dictionary, documents, texts_root,
        ))
    }
}
