//! The parts of an index that several threads make, collected in order.
//!
//! A piece of the work may be as small as one document or one list, and a tree that is large is itself cut.

ghost use Rattle.std.specs.Prelude.{◌≡◌, ◌<◌, ◌≤◌, [], length, map, slice_index_or, IfOk};
ghost use Rattle.std.specs.Thread.{IsSync};
ghost use Rattle.ats_terms.specs.Terms.{terms};
ghost use Rattle.ats_terms.specs.Query.{counted};
ghost use Rattle.ats_tree.specs.Kept.{kept_digests};
ghost use Rattle.ats_tree.specs.Tree.{mth};
ghost use Rattle.ats_dict.specs.Dictionary.{dict_leaves};
ghost use Rattle.ats_commit.specs.Trees.{dict_entry, documents_of};
ghost use Rattle.ats_lists.specs.KeptList.{kept_list};
ghost use Rattle.ats_postings.specs.Lists.{lists_of};
ghost use Rattle.ats_doctree.specs.Impacts.{doc_terms};
ghost use Rattle.ats_doctree.specs.Sentinels.{terms_leaves};
ghost use Rattle.ats_index.specs.Inner.Kept.{all_list_digests, all_term_digests};
ghost use Rattle.ats_index.specs.Parts.{all_leaves};
ghost use Rattle.ats_index.specs.Inner.Parts.{all_counts, all_terms};

use crate::dictionary::DictionaryTree;
use crate::doc_leaves::DocumentsTree;
use crate::documents::DocumentParts;
use crate::header::root_of_texts;
use crate::large_trees::{dictionary_tree, digests_of_list, documents_tree, nodes_of_terms};
use crate::memory::OutOfMemory;
use ats_doctree::DocTerms;
use ats_hash::Hash32;
use ats_impact::Collection;
use ats_lists::{Format, ListDigests, Lists, ListsBuilder};
use ats_terms::TermCounts;
use ats_tree::Nodes;
use rayon::prelude::*;
use rayon::{current_num_threads, join};
use std::alloc::Global;
use std::thread::Threads;

// The documents are halved twice, so four runs of them are gathered in parallel.
const HALVINGS: u32 = 2;

// The counted terms of each document.
fn counts_of_documents(
    rt: &(impl Threads + Sync),
    alloc: Global,
    collection: &Collection,
) -> Result<Vec<TermCounts>, OutOfMemory>
    ensures { IfOk result (λ counts. counts.items ≡ all_counts collection.now) }
{
    let made: Result<Vec<TermCounts>, OutOfMemory> = (0..collection.documents())
        .into_par_iter()
        .with_min_len(1)
        .map(
            |doc: u32| -> Result<TermCounts, OutOfMemory>
                requires { doc < length collection.now }
                ensures { IfOk result (λ counts.
                    counts ≡ counted (terms (slice_index_or collection.entry.now doc []))) }
            { Ok(TermCounts::of(alloc, collection.terms(doc))?) },
        )
        .collect(rt, alloc)?;
    made
}

// The run of these documents, from their counted terms.
fn run_of<'a>(
    alloc: Global,
    collection: &'a Collection,
    counts: &[TermCounts],
    first: u32,
    end: u32,
) -> Result<ListsBuilder<'a>, OutOfMemory>
    requires order { first ≤ end }
    requires inside { end ≤ length collection.now }
    requires counts { counts.now ≡ all_counts collection.now }
    ensures { IfOk result (λ run. run ≡ (collection.now, first, end)) }
{
    let mut run = ListsBuilder::starting_at(alloc, collection, first);
    for doc in first..end {
        run = run.add(&counts[doc as usize])?;
    }
    Ok(run)
}

// Where to cut these documents, so that about as many counted terms are before the cut as after it.
fn middle_of(counts: &[TermCounts], first: u32, end: u32) -> u32
    requires order { first ≤ end }
    requires inside { end ≤ length counts.now }
    ensures low { first ≤ result }
    ensures high { result ≤ end }
{
    let (mut low, mut high) = (first, end);
    let (mut front, mut back): (usize, usize) = (0, 0);
    while low < high {
        if front <= back {
            front = front.saturating_add(counts[low as usize].len());
            low += 1;
        } else {
            high -= 1;
            back = back.saturating_add(counts[high as usize].len());
        }
    }
    low
}

// The run of these documents. They are halved `halvings` times, and the halves are gathered in parallel.
#[cycle(halves)]
fn run_by_threads<'a, R: Threads + Sync>(
    rt: &R,
    alloc: Global,
    collection: &'a Collection,
    counts: &[TermCounts],
    first: u32,
    end: u32,
    halvings: u32,
) -> Result<ListsBuilder<'a>, OutOfMemory>
    requires order { first ≤ end }
    requires inside { end ≤ length collection.now }
    requires counts { counts.now ≡ all_counts collection.now }
    ensures { IfOk result (λ run. run ≡ (collection.now, first, end)) }
{
    if halvings == 0 {
        return run_of(alloc, collection, counts, first, end);
    }
    let middle = middle_of(counts, first, end);
    let front = move || -> Result<ListsBuilder<'_>, OutOfMemory>
        requires { IsSync R.row × (0 < halvings) × (first ≤ middle) × (middle ≤ length collection.now)
            × (counts.now ≡ all_counts collection.now) }
        ensures { IfOk result (λ run. run ≡ (collection.entry.now, first, middle)) }
    { run_by_threads(rt, alloc, collection, counts, first, middle, halvings - 1) };
    let back = move || -> Result<ListsBuilder<'_>, OutOfMemory>
        requires { IsSync R.row × (0 < halvings) × (middle ≤ end) × (end ≤ length collection.now)
            × (counts.now ≡ all_counts collection.now) }
        ensures { IfOk result (λ run. run ≡ (collection.entry.now, middle, end)) }
    { run_by_threads(rt, alloc, collection, counts, middle, end, halvings - 1) };
    let (front, back) = join(rt, front, back);
    Ok(front?.join(back?)?)
}

// The lists, from the counted terms of all documents.
fn lists_of_counts<R: Threads + Sync>(
    rt: &R,
    alloc: Global,
    collection: &Collection,
    counts: &[TermCounts],
) -> Result<Lists, OutOfMemory>
    requires { counts.now ≡ all_counts collection.now }
    ensures { IfOk result (λ lists. lists ≡ lists_of collection.now) }
{
    let documents = collection.documents();
    let run = run_by_threads(rt, alloc, collection, counts, 0, documents, HALVINGS)?;
    let lists = run.finish()?;
    Ok(lists)
}

// The nodes of the tree of a document's terms. Its counted terms are copied for as long as that takes.
fn nodes_of_document<H: Hash32 + Sync, R: Threads + Sync>(
    rt: &R,
    alloc: Global,
    collection: &Collection,
    counts: &[TermCounts],
    doc: u32,
) -> Result<Nodes, OutOfMemory>
    requires inside { doc < length collection.now }
    requires counts { counts.now ≡ all_counts collection.now }
    ensures { IfOk result (λ nodes. nodes ≡ kept_digests H.hash (terms_leaves (doc_terms collection.now doc))) }
{
    let counts = counts[doc as usize].copy(alloc)?;
    nodes_of_terms::<H, R>(rt, alloc, &DocTerms::from_counts(counts, collection, doc))
}

// The nodes of the tree of each document's terms.
fn nodes_of_documents_terms<H: Hash32 + Sync, R: Threads + Sync>(
    rt: &R,
    alloc: Global,
    collection: &Collection,
    counts: &[TermCounts],
) -> Result<Vec<Nodes>, OutOfMemory>
    requires { counts.now ≡ all_counts collection.now }
    ensures { IfOk result (λ nodes. nodes.items ≡ all_term_digests H.hash collection.now) }
{
    // One piece for each thread, where a map makes two: the threads that gather the lists must be free to hash their
    // trees.
    let documents = collection.documents();
    let piece = documents as usize / current_num_threads(rt);
    let made: Result<Vec<Nodes>, OutOfMemory> = (0..documents)
        .into_par_iter()
        .with_min_len(piece)
        .map(
            |doc: u32| -> Result<Nodes, OutOfMemory>
                requires inside { doc < length collection.now }
                requires counts { counts.now ≡ all_counts collection.now }
                ensures { IfOk result (λ nodes.
                    nodes ≡ kept_digests H.hash (terms_leaves (doc_terms collection.entry.now doc))) }
            { nodes_of_document::<H, R>(rt, alloc, collection, counts, doc) },
        )
        .collect(rt, alloc)?;
    made
}

// The digests of each list in this format.
fn digests_of_all_lists<H: Hash32 + Sync, R: Threads + Sync>(
    rt: &R,
    alloc: Global,
    format: Format,
    lists: &Lists,
) -> Result<Vec<ListDigests>, OutOfMemory>
    ensures { IfOk result (λ digests. digests.items ≡ all_list_digests H.hash format lists.now) }
{
    let made: Result<Vec<ListDigests>, OutOfMemory> = (0..lists.len())
        .into_par_iter()
        .with_min_len(1)
        .map(
            |i: u32| -> Result<ListDigests, OutOfMemory>
                requires { i < length lists.now }
                ensures { IfOk result (λ kept.
                    kept ≡ kept_list H.hash format (slice_index_or lists.entry.now i ([], [])).1) }
            { digests_of_list::<H, R>(rt, alloc, format, lists, i) },
        )
        .collect(rt, alloc)?;
    made
}

// The lists with their digests in this format, which are hashed as soon as the lists are made.
fn lists_with_digests<H: Hash32 + Sync, R: Threads + Sync>(
    rt: &R,
    alloc: Global,
    format: Format,
    collection: &Collection,
    counts: &[TermCounts],
) -> Result<(Lists, Vec<ListDigests>), OutOfMemory>
    requires { counts.now ≡ all_counts collection.now }
    ensures lists { IfOk result (λ made. made.0 ≡ lists_of collection.now) }
    ensures digests { IfOk result (λ made. made.1.items ≡ all_list_digests H.hash format (lists_of collection.now)) }
{
    let lists = lists_of_counts::<R>(rt, alloc, collection, counts)?;
    let digests = digests_of_all_lists::<H, R>(rt, alloc, format, &lists)?;
    Ok((lists, digests))
}

// The lists with their digests, and the nodes of the trees of the documents' terms.
#[derive(Drop)]
struct Hashed {
    lists: Lists,
    list_digests: Vec<ListDigests>,
    term_nodes: Vec<Nodes>,
}

// The lists with their digests in this format and, in parallel, the nodes of the trees of the documents' terms.
fn hashed_by_threads<H: Hash32 + Sync, R: Threads + Sync>(
    rt: &R,
    alloc: Global,
    format: Format,
    collection: &Collection,
    counts: &[TermCounts],
) -> Result<Hashed, OutOfMemory>
    requires { counts.now ≡ all_counts collection.now }
    ensures lists { IfOk result (λ made. made.lists ≡ lists_of collection.now) }
    ensures list_digests { IfOk result (λ made.
        made.list_digests.items ≡ all_list_digests H.hash format (lists_of collection.now)) }
    ensures term_nodes { IfOk result (λ made. made.term_nodes.items ≡ all_term_digests H.hash collection.now) }
{
    let (lists, term_nodes) = join(
        rt,
        || -> Result<(Lists, Vec<ListDigests>), OutOfMemory>
            requires sync { IsSync R.row × IsSync H.row }
            requires counts { counts.now ≡ all_counts collection.now }
            ensures lists { IfOk result (λ made. made.0 ≡ lists_of collection.entry.now) }
            ensures digests { IfOk result (λ made.
                made.1.items ≡ all_list_digests H.hash format (lists_of collection.entry.now)) }
        { lists_with_digests::<H, R>(rt, alloc, format, collection, counts) },
        || -> Result<Vec<Nodes>, OutOfMemory>
            requires sync { IsSync R.row × IsSync H.row }
            requires counts { counts.now ≡ all_counts collection.now }
            ensures { IfOk result (λ nodes. nodes.items ≡ all_term_digests H.hash collection.entry.now) }
        { nodes_of_documents_terms::<H, R>(rt, alloc, collection, counts) },
    );
    let (lists, list_digests) = lists?;
    Ok(Hashed {
        lists,
        list_digests,
        term_nodes: term_nodes?,
    })
}

// The terms of each document, from its counted terms.
fn terms_of_documents(
    alloc: Global,
    collection: &Collection,
    counts: Vec<TermCounts>,
) -> Result<Vec<DocTerms>, OutOfMemory>
    requires { counts.items ≡ all_counts collection.now }
    ensures { IfOk result (λ terms. terms.items ≡ all_terms collection.now) }
{
    // A collection has at most 65,536 documents.
    prove!(collection.documents() <= 65536);
    let mut made = Vec::with_capacity(alloc, counts.len())?;
    let mut doc = 0;
    for counts in counts {
        made.push(DocTerms::from_counts(counts, collection, doc))?;
        doc += 1;
    }
    Ok(made)
}

// The lists with their digests in this format, and the terms of the documents with the nodes of their trees. Each document
// is counted once.
fn counted_by_threads<H: Hash32 + Sync, R: Threads + Sync>(
    rt: &R,
    alloc: Global,
    format: Format,
    collection: &Collection,
) -> Result<DocumentParts, OutOfMemory>
    ensures lists { IfOk result (λ made. made.lists ≡ lists_of collection.now) }
    ensures list_digests { IfOk result (λ made.
        made.list_digests.items ≡ all_list_digests H.hash format (lists_of collection.now)) }
    ensures terms { IfOk result (λ made. made.terms.items ≡ all_terms collection.now) }
    ensures term_nodes { IfOk result (λ made. made.term_nodes.items ≡ all_term_digests H.hash collection.now) }
{
    let counts = counts_of_documents(rt, alloc, collection)?;
    let Hashed {
        lists,
        list_digests,
        term_nodes,
    } = hashed_by_threads::<H, R>(rt, alloc, format, collection, &counts)?;
    let terms = terms_of_documents(alloc, collection, counts)?;
    Ok(DocumentParts {
        lists,
        list_digests,
        terms,
        term_nodes,
    })
}

/// The lists with their digests in this format, the terms of the documents with the nodes of their trees, and in parallel
/// the root of the texts.
pub(crate) fn parts_and_texts<H: Hash32 + Sync, R: Threads + Sync>(
    rt: &R,
    alloc: Global,
    format: Format,
    collection: &Collection,
) -> Result<(DocumentParts, [u8; 32]), OutOfMemory>
    ensures lists { IfOk result (λ made. made.0.lists ≡ lists_of collection.now) }
    ensures list_digests { IfOk result (λ made.
        made.0.list_digests.items ≡ all_list_digests H.hash format (lists_of collection.now)) }
    ensures terms { IfOk result (λ made. made.0.terms.items ≡ all_terms collection.now) }
    ensures term_nodes { IfOk result (λ made. made.0.term_nodes.items ≡ all_term_digests H.hash collection.now) }
    ensures texts { IfOk result (λ made. made.1 ≡ mth H.hash collection.now) }
{
    let (parts, texts_root) = join(
        rt,
        || -> Result<DocumentParts, OutOfMemory>
            requires { IsSync R.row × IsSync H.row }
            ensures lists { IfOk result (λ made. made.lists ≡ lists_of collection.entry.now) }
            ensures list_digests { IfOk result (λ made.
                made.list_digests.items ≡ all_list_digests H.hash format (lists_of collection.entry.now)) }
            ensures terms { IfOk result (λ made. made.terms.items ≡ all_terms collection.entry.now) }
            ensures term_nodes { IfOk result (λ made.
                made.term_nodes.items ≡ all_term_digests H.hash collection.entry.now) }
        { counted_by_threads::<H, R>(rt, alloc, format, collection) },
        || -> [u8; 32]
            ensures { result ≡ mth H.hash collection.entry.now }
        { root_of_texts::<H>(alloc, collection) },
    );
    Ok((parts?, texts_root))
}

/// The dictionary and the documents tree, in parallel, from parts with lists in this format.
pub(crate) fn upper_trees<H: Hash32 + Sync, R: Threads + Sync>(
    rt: &R,
    alloc: Global,
    format: Format,
    collection: &Collection,
    parts: &DocumentParts,
) -> Result<(DictionaryTree, DocumentsTree), OutOfMemory>
    requires terms { parts.now.terms.items ≡ all_terms collection.now }
    requires term_nodes { parts.now.term_nodes.items ≡ all_term_digests H.hash collection.now }
    requires list_digests { parts.now.list_digests.items ≡ all_list_digests H.hash format parts.now.lists }
    ensures dictionary { IfOk result (λ made. made.0.dictionary ≡ map (dict_entry H.hash format) parts.now.lists) }
    ensures dict_nodes { IfOk result (λ made. made.0.nodes ≡ kept_digests H.hash (dict_leaves made.0.dictionary)) }
    ensures leaves { IfOk result (λ made. made.1.leaves.items ≡ all_leaves H.hash collection.now) }
    ensures docs_nodes { IfOk result (λ made. made.1.nodes ≡ kept_digests H.hash (documents_of H.hash collection.now)) }
{
    let (dictionary, documents) = join(
        rt,
        || -> Result<DictionaryTree, OutOfMemory>
            requires sync { IsSync R.row × IsSync H.row }
            requires digests { parts.now.list_digests.items ≡ all_list_digests H.hash format parts.now.lists }
            ensures dictionary { IfOk result (λ made.
                made.dictionary ≡ map (dict_entry H.hash format) parts.entry.now.lists) }
            ensures nodes { IfOk result (λ made. made.nodes ≡ kept_digests H.hash (dict_leaves made.dictionary)) }
        { dictionary_tree::<H, R>(rt, alloc, format, &parts.lists, &parts.list_digests) },
        || -> Result<DocumentsTree, OutOfMemory>
            requires sync { IsSync R.row × IsSync H.row }
            requires terms { parts.now.terms.items ≡ all_terms collection.now }
            requires nodes { parts.now.term_nodes.items ≡ all_term_digests H.hash collection.now }
            ensures leaves { IfOk result (λ made. made.leaves.items ≡ all_leaves H.hash collection.entry.now) }
            ensures nodes { IfOk result (λ made.
                made.nodes ≡ kept_digests H.hash (documents_of H.hash collection.entry.now)) }
        { documents_tree::<H, R>(rt, alloc, collection, &parts.terms, &parts.term_nodes) },
    );
    Ok((dictionary?, documents?))
}
