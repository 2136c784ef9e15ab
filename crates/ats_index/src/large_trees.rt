//! Trees that may be large, hashed by several threads: a large one is cut into parts. One text may have most of an
//! archive's terms, and one list most of its documents, so that one tree alone would keep a thread busy.

ghost use Rattle.std.specs.Prelude.{◌≡◌, ◌<◌, [], length, map, slice_index_or, IfOk};
ghost use Rattle.ats_tree.specs.Kept.{kept_digests};
ghost use Rattle.ats_lists.specs.KeptList.{kept_list};
ghost use Rattle.ats_dict.specs.Dictionary.{dict_leaves};
ghost use Rattle.ats_doctree.specs.Sentinels.{terms_leaves};
ghost use Rattle.ats_commit.specs.Trees.{dict_entry, documents_of};
ghost use Rattle.ats_index.specs.Inner.Kept.{all_list_digests, all_term_digests};
ghost use Rattle.ats_index.specs.Parts.{all_leaves};
ghost use Rattle.ats_index.specs.Inner.Parts.{all_terms};

use crate::dictionary::{DictionaryTree, dictionary_of};
use crate::doc_leaves::{DocumentsTree, leaves_of_documents};
use crate::memory::OutOfMemory;
use ats_commit::DocLeaves;
use ats_doctree::DocTerms;
use ats_hash::{Hash32, Steps};
use ats_impact::Collection;
use ats_lists::{Format, ListDigests, ListLeaves, Lists};
use ats_tree::{Leaves, Nodes};
use std::alloc::Global;
use std::thread::Threads;

// Trees of at most this many leaves are not cut: one thread takes some ten milliseconds, while others hash other trees.
const BESIDE_OTHERS: u32 = 16_384;

// The same limit if no other tree is left to hash: a millisecond or two.
const ALONE: u32 = 2048;

// How often to cut a tree. A cut leaves a power of two of leaves on its left, so after three cuts no part has more than
// a fourth of the leaves.
fn halvings(leaves: u32, whole: u32) -> u32 {
    if leaves <= whole { 0 } else { 3 }
}

/// The nodes of the tree of a document's terms.
pub(crate) fn nodes_of_terms<H: Hash32 + Sync, R: Threads + Sync>(
    rt: &R,
    alloc: Global,
    terms: &DocTerms,
) -> Result<Nodes, OutOfMemory>
    ensures { IfOk result (λ nodes. nodes ≡ kept_digests H.hash (terms_leaves terms.now)) }
{
    // A document has at most 2^20 terms.
    prove!(terms.len() >= 2);
    Ok(Nodes::of_by_threads::<H, _, R>(rt, alloc, terms, halvings(terms.len(), BESIDE_OTHERS))?)
}

/// The digests of list `i`, counted from 0, in this format.
pub(crate) fn digests_of_list<H: Hash32 + Sync, R: Threads + Sync>(
    rt: &R,
    alloc: Global,
    format: Format,
    lists: &Lists,
    i: u32,
) -> Result<ListDigests, OutOfMemory>
    requires { i < length lists.now }
    ensures { IfOk result (λ kept. kept ≡ kept_list H.hash format (slice_index_or lists.now i ([], [])).1) }
{
    let entries = lists.list(i);
    match format {
        Format::One => {
            let leaves = ListLeaves { entries };
            let halvings = halvings(leaves.len(), BESIDE_OTHERS);
            let nodes = Nodes::of_by_threads::<H, _, R>(rt, alloc, &leaves, halvings)?;
            Ok(ListDigests::Tree(nodes))
        }
        Format::Two => Ok(ListDigests::of::<H>(alloc, format, entries, &mut Steps::new(alloc))?),
    }
}

/// The dictionary of lists with its tree, from their digests in this format.
pub(crate) fn dictionary_tree<H: Hash32 + Sync, R: Threads + Sync>(
    rt: &R,
    alloc: Global,
    format: Format,
    lists: &Lists,
    digests: &[ListDigests],
) -> Result<DictionaryTree, OutOfMemory>
    requires { digests.now ≡ all_list_digests H.hash format lists.now }
    ensures dictionary { IfOk result (λ made. made.dictionary ≡ map (dict_entry H.hash format) lists.now) }
    ensures nodes { IfOk result (λ made. made.nodes ≡ kept_digests H.hash (dict_leaves made.dictionary)) }
{
    let dictionary = dictionary_of::<H>(alloc, format, lists, digests)?;
    // A dictionary has at most 2^24 terms.
    prove!(dictionary.len() >= 2);
    let halvings = halvings(dictionary.len(), ALONE);
    let nodes = Nodes::of_by_threads::<H, _, R>(rt, alloc, &dictionary, halvings)?;
    Ok(DictionaryTree { dictionary, nodes })
}

/// The documents tree of a collection, from the terms of its documents and the nodes of their trees.
pub(crate) fn documents_tree<H: Hash32 + Sync, R: Threads + Sync>(
    rt: &R,
    alloc: Global,
    collection: &Collection,
    terms: &[DocTerms],
    term_nodes: &[Nodes],
) -> Result<DocumentsTree, OutOfMemory>
    requires terms { terms.now ≡ all_terms collection.now }
    requires nodes { term_nodes.now ≡ all_term_digests H.hash collection.now }
    ensures leaves { IfOk result (λ made. made.leaves.items ≡ all_leaves H.hash collection.now) }
    ensures nodes { IfOk result (λ made. made.nodes ≡ kept_digests H.hash (documents_of H.hash collection.now)) }
{
    let leaves = leaves_of_documents::<H>(alloc, collection, terms, term_nodes)?;
    let halvings = halvings(collection.documents(), ALONE);
    let nodes = Nodes::of_by_threads::<H, _, R>(
        rt,
        alloc,
        &DocLeaves { leaves: &leaves },
        halvings,
    )?;
    Ok(DocumentsTree { leaves, nodes })
}
