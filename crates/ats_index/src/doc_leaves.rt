//! The leaves of the documents tree, and its nodes.

ghost use Rattle.std.specs.Prelude.{◌≡◌, ◌≤◌, length, map, IfOk};
ghost use Rattle.ats_tree.specs.Kept.{kept_digests};
ghost use Rattle.ats_doctree.specs.Sentinels.{terms_leaves};
ghost use Rattle.ats_commit.specs.Trees.{documents_of, leaf_of_terms};
ghost use Rattle.ats_index.specs.Inner.Kept.{all_term_digests};
ghost use Rattle.ats_index.specs.Parts.{all_leaves};
ghost use Rattle.ats_index.specs.Inner.Parts.{all_terms};

use crate::memory::OutOfMemory;
use ats_commit::DocLeaves;
use ats_doctree::{DocLeaf, DocTerms};
use ats_hash::{Hash32, HashKind, Steps};
use ats_impact::Collection;
use ats_tree::{Leaves, Nodes};
use std::alloc::Global;

// The leaf of a document with these terms.
fn doc_leaf<H: HashKind>(terms: &DocTerms, nodes: &Nodes) -> DocLeaf
    requires { nodes.now ≡ kept_digests H.hash (terms_leaves terms.now) }
    ensures { result ≡ leaf_of_terms H.hash terms.now }
{
    DocLeaf {
        leaves: terms.len(),
        root: nodes.root(),
    }
}

// The leaf of each document, from its terms and the nodes of their tree.
fn leaves_of<H: HashKind>(
    alloc: Global,
    terms: &[DocTerms],
    nodes: &[Nodes],
) -> Result<Vec<DocLeaf>, OutOfMemory>
    requires { nodes.now ≡ map (λ all. kept_digests H.hash (terms_leaves all)) terms.now }
    ensures { IfOk result (λ leaves. leaves.items ≡ map (leaf_of_terms H.hash) terms.now) }
{
    let mut leaves = Vec::with_capacity(alloc, terms.len())?;
    for doc in 0..terms.len() {
        leaves.push(doc_leaf::<H>(&terms[doc], &nodes[doc]))?;
    }
    Ok(leaves)
}

/// The leaves of all documents of a collection, from their terms and the nodes of their trees.
pub(crate) fn leaves_of_documents<H: HashKind>(
    alloc: Global,
    collection: &Collection,
    terms: &[DocTerms],
    term_nodes: &[Nodes],
) -> Result<Vec<DocLeaf>, OutOfMemory>
    requires terms { terms.now ≡ all_terms collection.now }
    requires nodes { term_nodes.now ≡ all_term_digests H.hash collection.now }
    ensures leaves { IfOk result (λ leaves. leaves.items ≡ all_leaves H.hash collection.now) }
    // A collection has 1 to 65,536 documents.
    ensures some { IfOk result (λ leaves. 1 ≤ length leaves.items) }
    ensures few { IfOk result (λ leaves. length leaves.items ≤ 65536) }
{
    prove!(collection.documents() >= 1);
    let leaves = leaves_of::<H>(alloc, terms, term_nodes)?;
    Ok(leaves)
}

/// The leaves of all documents, and the nodes of their tree.
#[derive(Drop)]
pub(crate) struct DocumentsTree {
    pub(crate) leaves: Vec<DocLeaf>,
    pub(crate) nodes: Nodes,
}

/// The documents tree of a collection, from the terms of its documents and the nodes of their trees, by one thread.
pub(crate) fn documents_tree<H: Hash32>(
    alloc: Global,
    collection: &Collection,
    terms: &[DocTerms],
    term_nodes: &[Nodes],
) -> Result<DocumentsTree, OutOfMemory>
    requires terms { terms.now ≡ all_terms collection.now }
    requires nodes { term_nodes.now ≡ all_term_digests H.hash collection.now }
    ensures leaves { IfOk result (λ made. made.leaves.items ≡ all_leaves H.hash collection.now) }
    ensures nodes { IfOk result (λ made. made.nodes ≡ kept_digests H.hash (documents_of H.hash collection.now)) }
{
    let leaves = leaves_of_documents::<H>(alloc, collection, terms, term_nodes)?;
    let nodes = Nodes::of::<H, _>(
        alloc,
        &DocLeaves { leaves: &leaves },
        &mut Steps::new(alloc),
    )?;
    Ok(DocumentsTree { leaves, nodes })
}
