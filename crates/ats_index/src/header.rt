//! The header of a collection, and the root of its texts.

ghost use Rattle.std.specs.Prelude.{◌≡◌};
ghost use Rattle.ats_tree.specs.Kept.{kept_digests};
ghost use Rattle.ats_tree.specs.Tree.{mth};
ghost use Rattle.ats_dict.specs.Dictionary.{dict_leaves};
ghost use Rattle.ats_lists.specs.declared.format.Format.{Format};
ghost use Rattle.ats_commit.specs.Trees.{dictionary_of, documents_of};
ghost use Rattle.ats_commit.specs.Root.{header_parts};
ghost use Rattle.ats_commit.specs.Own.{AreTexts};
ghost use Rattle.ats_index.specs.Parts.{archive_in};

use crate::dictionary::DictionaryTree;
use crate::doc_leaves::DocumentsTree;
use ats_commit::TextLeaves;
use ats_dict::Header;
use ats_hash::{Hash32, HashKind, Steps};
use ats_impact::Collection;
use ats_tree::{Leaves, root};
use std::alloc::Global;

/// The root of the tree of the texts.
pub(crate) fn root_of_texts<H: Hash32>(alloc: Global, collection: &Collection) -> [u8; 32]
    ensures { result ≡ mth H.hash collection.now }
{
    let texts = TextLeaves::new(collection, 0, collection.documents());
    root::<H, _>(&texts, &mut Steps::new(alloc))
}

/// The header of a collection, from its dictionary and documents tree with their nodes, and the root of its texts.
pub(crate) fn header_of<H: HashKind>(
    collection: &Collection,
    dictionary: &DictionaryTree,
    documents: &DocumentsTree,
    texts_root: [u8; 32],
) -> Header
    requires dict_nodes { dictionary.now.nodes ≡ kept_digests H.hash (dict_leaves dictionary.now.dictionary) }
    requires docs_nodes { documents.now.nodes ≡ kept_digests H.hash (documents_of H.hash collection.now) }
    requires texts_root { texts_root ≡ mth H.hash collection.now }
    ensures parts { (format : Format) → dictionary.now.dictionary ≡ dictionary_of H.hash (archive_in format collection.now)
        → result ≡ header_parts H.hash (archive_in format collection.now) }
    ensures texts { AreTexts collection.now }
{
    Header {
        documents: collection.documents(),
        dict_leaves: dictionary.dictionary.len(),
        dict_root: dictionary.nodes.root(),
        docs_root: documents.nodes.root(),
        texts_root,
    }
}
