//! What a proof shows of the met documents, if their scores are looked up.

ghost use Rattle.std.specs.Prelude.{◌≡◌, ◌+◌, ◌≤◌, ◌<◌, ◌^◌, ◌++◌, ℕ, length, map, OnOk};
ghost use Rattle.std.specs.List.{All, flat_map};
ghost use Rattle.std.specs.List.Sorted.{IsStrictlyIncreasing};
ghost use Rattle.ats_tree.specs.Elided.{elided_digests};
ghost use Rattle.ats_commit.specs.Trees.{documents_of};
ghost use Rattle.ats_doctree.specs.declared.doc_leaf.DocLeaf.{DocLeaf as Leaf};
ghost use Rattle.ats_proof.specs.Parts.{counted};
ghost use Rattle.ats_proof.specs.Value.{digest_fields, doc_fields};
ghost use Rattle.ats_honest.specs.Documents.{document_leaf};
ghost use Rattle.ats_prover.specs.Inner.Writing.{AreDocumentsWritten, AreSectionsWritten, IsStarted, put};

use crate::fault::OutOfMemory;
use crate::present_terms::PresentTerms;
use crate::shown::write_each_digest;
use crate::terms_section::{Section, write_section};
use ats_hash::HashKind;
use ats_index::Index;
use ats_proof::{Algorithm, ProofWriter};
use ats_tree::{Digests, Leaves};
use std::alloc::Global;

// Writes the leaf of each met document.
fn write_leaves<H: HashKind>(
    writer: &mut ProofWriter,
    index: &Index<H>,
    met: &[u32],
) -> Result<(), OutOfMemory>
    requires within { All (λ doc. doc < length index.now.texts) met.now }
    requires few { length met.now ≤ 65536 }
    requires started { IsStarted writer.old }
    requires space { writer.old.asked ≤ 2 ^ 60 }
    ensures fields { OnOk result
        (writer.new ≡ put writer.old (flat_map doc_fields (map (document_leaf H.hash index.now.texts) met.now))) }
    ensures small { OnOk result
        (All (λ (leaf : Leaf). leaf.leaves < 2 ^ 32) (map (document_leaf H.hash index.now.texts) met.now)) }
    ensures size { OnOk result (writer.new.asked ≤ writer.old.asked + 2 ^ 22) }
{
    for doc in met {
        // The tree of a document has at most 2^20 + 2 leaves.
        prove!(index.doc_terms(*doc).len() >= 2);
        writer.doc_leaf(index.doc_leaf(*doc))?;
    }
    Ok(())
}

// Writes the leaf of each met document, and the digests that the tree of all documents needs besides.
fn write_tree<H: HashKind>(
    alloc: Global,
    writer: &mut ProofWriter,
    index: &Index<H>,
    met: &[u32],
) -> Result<(), OutOfMemory>
    requires rise { IsStrictlyIncreasing met.now }
    requires within { All (λ doc. doc < length index.now.texts) met.now }
    requires few { length met.now ≤ 65536 }
    requires started { IsStarted writer.old }
    requires space { writer.old.asked ≤ 2 ^ 59 }
    ensures fields { OnOk result
        (writer.new ≡ put writer.old (flat_map doc_fields (map (document_leaf H.hash index.now.texts) met.now)
        ++ counted 4 digest_fields (elided_digests H.hash (documents_of H.hash index.now.texts) met.now))) }
    ensures small { OnOk result
        (All (λ (leaf : Leaf). leaf.leaves < 2 ^ 32) (map (document_leaf H.hash index.now.texts) met.now)) }
    ensures few { OnOk result (length index.now.texts ≤ 65536) }
    ensures size { OnOk result (writer.new.asked ≤ writer.old.asked + 2 ^ 23) }
{
    // A collection has few documents.
    prove!(index.collection().documents() <= 65536);
    let mut digests = Digests::new(alloc);
    index.docs_nodes().elided(met, &mut digests)?;
    write_leaves(writer, index, met)?;
    writer.count32(digests.len() as u32)?;
    write_each_digest(writer, &digests)
}

// Writes for each met document where the present terms are.
fn write_sections<H: HashKind>(
    alloc: Global,
    writer: &mut ProofWriter,
    index: &Index<H>,
    present: &PresentTerms<'_>,
    met: &[u32],
) -> Result<(), OutOfMemory>
    requires within { All (λ doc. doc < length index.now.texts) met.now }
    requires some { 1 ≤ length met.now → 1 ≤ length present.now }
    requires few { length met.now ≤ 65536 }
    requires started { IsStarted writer.old }
    requires space { writer.old.asked ≤ 2 ^ 57 }
    ensures written { OnOk result
        (AreSectionsWritten H.hash index.now.texts present.now met.now writer.old writer.new) }
    ensures size { OnOk result (writer.new.asked ≤ writer.old.asked + 2 ^ 39) }
{
    let mut section = Section::new(alloc);
    for doc in met {
        let terms = index.doc_terms(*doc);
        write_section::<H>(writer, terms, index.doc_nodes(*doc), present, &mut section)?;
    }
    Ok(())
}

/// Writes the leaves of the met documents, the digests that the tree of all documents needs besides, and for each where
/// the present terms are. TNRA writes nothing.
pub(crate) fn write_documents<H: HashKind>(
    alloc: Global,
    writer: &mut ProofWriter,
    index: &Index<H>,
    present: &PresentTerms<'_>,
    met: &[u32],
    algorithm: Algorithm,
) -> Result<(), OutOfMemory>
    requires rise { IsStrictlyIncreasing met.now }
    requires within { All (λ doc. doc < length index.now.texts) met.now }
    requires some { 1 ≤ length met.now → 1 ≤ length present.now }
    requires few { length met.now ≤ 65536 }
    requires started { IsStarted writer.old }
    requires space { writer.old.asked ≤ 2 ^ 56 }
    ensures written { OnOk result
        (AreDocumentsWritten algorithm H.hash index.now.texts present.now met.now writer.old writer.new) }
    ensures size { OnOk result (writer.new.asked ≤ writer.old.asked + 2 ^ 40) }
{
    match algorithm {
        Algorithm::Tra => {
            write_tree(alloc, writer, index, met)?;
            write_sections(alloc, writer, index, present, met)
        }
        Algorithm::Tnra => Ok(()),
    }
}
