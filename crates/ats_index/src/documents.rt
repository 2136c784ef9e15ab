//! The lists of a collection with their digests, and the terms of all documents with the nodes of their trees, by one
//! thread.

ghost use Rattle.std.specs.Prelude.{◌≡◌, ◌<◌, ◌+◌, ◌++◌, ◌∷◌, [], length, IfOk, OnOk};
ghost use Rattle.ats_terms.specs.Terms.{terms};
ghost use Rattle.ats_terms.specs.Query.{counted};
ghost use Rattle.ats_postings.specs.Lists.{lists_of};
ghost use Rattle.ats_postings.specs.Postings.{text_of};
ghost use Rattle.ats_tree.specs.Kept.{kept_digests};
ghost use Rattle.ats_doctree.specs.Impacts.{doc_terms};
ghost use Rattle.ats_doctree.specs.Sentinels.{terms_leaves};
ghost use Rattle.ats_index.specs.Inner.Kept.{all_list_digests, all_term_digests};
ghost use Rattle.ats_index.specs.Inner.Parts.{all_terms};

use crate::dictionary::digests_of_lists;
use crate::memory::OutOfMemory;
use ats_doctree::DocTerms;
use ats_hash::{Hash32, Steps};
use ats_impact::Collection;
use ats_lists::{Format, ListDigests, Lists, ListsBuilder};
use ats_terms::TermCounts;
use ats_tree::{Leaves, Nodes};
use std::alloc::Global;

/// The lists with their digests, and for each document its terms and the nodes of their tree.
#[derive(Drop)]
pub(crate) struct DocumentParts {
    pub(crate) lists: Lists,
    pub(crate) list_digests: Vec<ListDigests>,
    pub(crate) terms: Vec<DocTerms>,
    pub(crate) term_nodes: Vec<Nodes>,
}

// The nodes of the tree of a document's terms.
fn nodes_of_terms<H: Hash32>(alloc: Global, terms: &DocTerms) -> Result<Nodes, OutOfMemory>
    ensures { IfOk result (λ nodes. nodes ≡ kept_digests H.hash (terms_leaves terms.now)) }
{
    // A document has at most 2^20 terms.
    prove!(terms.len() >= 2);
    Ok(Nodes::of::<H, _>(alloc, terms, &mut Steps::new(alloc))?)
}

// Appends the terms of a document, from its counts, and the nodes of their tree.
fn put_document<H: Hash32>(
    alloc: Global,
    collection: &Collection,
    doc: u32,
    counts: TermCounts,
    all: &mut Vec<DocTerms>,
    nodes: &mut Vec<Nodes>,
) -> Result<(), OutOfMemory>
    requires inside { doc < length collection.now }
    requires counts { counts ≡ counted (terms (text_of collection.now doc)) }
    ensures terms { OnOk result (all.new.items ≡ all.old.items ++ doc_terms collection.now doc ∷ []) }
    ensures nodes { OnOk result (nodes.new.items
        ≡ nodes.old.items ++ kept_digests H.hash (terms_leaves (doc_terms collection.now doc)) ∷ []) }
{
    let found = DocTerms::from_counts(counts, collection, doc);
    nodes.push(nodes_of_terms::<H>(alloc, &found)?)?;
    all.push(found)?;
    Ok(())
}

// Counts a document, adds it to the run, and appends its terms and the nodes of their tree.
fn with_document<'a, H: Hash32>(
    alloc: Global,
    collection: &'a Collection,
    doc: u32,
    run: ListsBuilder<'a>,
    all: &mut Vec<DocTerms>,
    nodes: &mut Vec<Nodes>,
) -> Result<ListsBuilder<'a>, OutOfMemory>
    requires inside { doc < length collection.now }
    requires run { run ≡ (collection.now, 0, doc) }
    ensures run { IfOk result (λ made. made ≡ (collection.now, 0, doc + 1)) }
    ensures terms { OnOk result (all.new.items ≡ all.old.items ++ doc_terms collection.now doc ∷ []) }
    ensures nodes { OnOk result (nodes.new.items
        ≡ nodes.old.items ++ kept_digests H.hash (terms_leaves (doc_terms collection.now doc)) ∷ []) }
{
    let counts = TermCounts::of(alloc, collection.terms(doc))?;
    let run = run.add(&counts)?;
    put_document::<H>(alloc, collection, doc, counts, all, nodes)?;
    Ok(run)
}

// Counts each document once: returns the lists, and appends the terms of each document and the nodes of their tree.
fn lists_and_terms<H: Hash32>(
    alloc: Global,
    collection: &Collection,
    all: &mut Vec<DocTerms>,
    nodes: &mut Vec<Nodes>,
) -> Result<Lists, OutOfMemory>
    requires no_terms { all.old.items ≡ [] }
    requires no_nodes { nodes.old.items ≡ [] }
    ensures lists { IfOk result (λ lists. lists ≡ lists_of collection.now) }
    ensures terms { OnOk result (all.new.items ≡ all_terms collection.now) }
    ensures nodes { OnOk result (nodes.new.items ≡ all_term_digests H.hash collection.now) }
{
    let mut run = ListsBuilder::new(alloc, collection);
    for doc in 0..collection.documents() {
        run = with_document::<H>(alloc, collection, doc, run, all, nodes)?;
    }
    Ok(run.finish()?)
}

/// Counts each document once, and hashes the trees of its terms, and the lists in this format.
pub(crate) fn counted<H: Hash32>(
    alloc: Global,
    format: Format,
    collection: &Collection,
) -> Result<DocumentParts, OutOfMemory>
    ensures lists { IfOk result (λ made. made.lists ≡ lists_of collection.now) }
    ensures list_digests { IfOk result (λ made.
        made.list_digests.items ≡ all_list_digests H.hash format (lists_of collection.now)) }
    ensures terms { IfOk result (λ made. made.terms.items ≡ all_terms collection.now) }
    ensures term_nodes { IfOk result (λ made. made.term_nodes.items ≡ all_term_digests H.hash collection.now) }
{
    let documents = collection.documents() as usize;
    let mut terms = Vec::with_capacity(alloc, documents)?;
    let mut term_nodes = Vec::with_capacity(alloc, documents)?;
    let lists = lists_and_terms::<H>(alloc, collection, &mut terms, &mut term_nodes)?;
    let list_digests = digests_of_lists::<H>(alloc, format, &lists)?;
    Ok(DocumentParts {
        lists,
        list_digests,
        terms,
        term_nodes,
    })
}
