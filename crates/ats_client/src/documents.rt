//! Checks what is shown of the met documents: their leaves in the documents tree, and the terms of each.

ghost use Rattle.std.specs.Prelude.{◌≡◌, ◌<◌, ◌≤◌, ◌+◌, ◌*◌, ◌^◌, List, [], length, slice_set, OnOk, IfErr};
ghost use Rattle.ats_bound.specs.Cut.{bracket, threshold as threshold_of};
ghost use Rattle.ats_bound.specs.Work.{mark_at};
ghost use Rattle.ats_proof.specs.Value.{items_of_documents};
ghost use Rattle.ats_client.specs.Bracketing.{bounds_of};
ghost use Rattle.ats_client.specs.Documents.{IsDocsTree, IsDocsFault, AreDocumentsRight, IsDocumentsFault};
ghost use Rattle.ats_client.specs.Marked.{AreMarks, AreNoted};
ghost use Rattle.ats_client.specs.Presented.{lanes_of};
ghost use Rattle.ats_client.specs.Inner.KeptTerms.{kept_terms};

use crate::document::document;
use crate::kept_terms::PresentTerms;
use crate::rebuilding::rebuilt;
use ats_bound::{Mark, Work};
use ats_hash::{Hash32, Steps};
use ats_proof::ProofView;
use ats_refusal::Refusal;
use ats_terms::Query;

/// Checks that the leaves of the met documents are part of the header's documents tree.
pub(crate) fn documents_tree<H: Hash32>(
    proof: &ProofView<'_>,
    steps: &mut Steps,
) -> Result<(), Refusal>
    requires space { steps.old ≤ 2 ^ 63 }
    ensures holds { OnOk result (IsDocsTree H.hash proof.now) }
    ensures fault { IfErr result (IsDocsFault H.hash proof.now) }
    ensures cost { steps.new ≤ steps.old + 2 ^ 34 }
    ensures most { steps.new ≤ steps.old + 3 * items_of_documents proof.now.docs + 1 }
{
    let Some(docs) = proof.docs() else {
        return Ok(());
    };
    let header = proof.header();
    let mut section = docs.revealed(proof);
    let Some(digest) = rebuilt::<H, _>(header.documents, &mut section, steps) else {
        return Err(Refusal::DocsMisfit);
    };
    if digest != header.docs_root {
        return Err(Refusal::DocsRoot);
    }
    Ok(())
}

// Notes the score of a met document in its mark. All of the threshold is held, so both bounds are this score.
fn noted(work: &mut Work, index: u32, score: u64, threshold: u64, steps: &mut Steps)
    requires inside { index < length work.old.marks }
    requires space { steps.old ≤ 2 ^ 63 }
    ensures marks { work.new.marks ≡ slice_set work.old.marks index
        (record {
          lo = score;
          held = threshold;
          list = (mark_at work.old.marks index).list;
          row = (mark_at work.old.marks index).row;
        }) }
    ensures room { work.new.room ≡ work.old.room }
    ensures cost { steps.new ≤ steps.old + 2 }
{
    let mark = work.get(index, steps);
    let mark = Mark {
        lo: score,
        held: threshold,
        ..mark
    };
    work.put(index, mark, steps);
}

/// Checks what is shown of the met documents, one after another, and notes their scores in their marks. If the proof
/// shows none, the marks stay as they are.
pub(crate) fn documents<'a, H: Hash32>(
    query: &Query,
    proof: &ProofView<'a>,
    terms: &PresentTerms,
    threshold: u64,
    work: &mut Work,
    steps: &mut Steps,
) -> Result<(), Refusal>
    requires slots { length proof.now.slots ≡ length query.now }
    requires terms { terms.now ≡ kept_terms query.now proof.now }
    requires marks { AreMarks bracket (lanes_of query.now proof.now) proof.now.met work.old.marks }
    requires free { AreNoted [] work.old.marks }
    requires threshold { threshold ≡ threshold_of (lanes_of query.now proof.now) }
    requires space { steps.old ≤ 2 ^ 62 + 2 ^ 50 }
    ensures right { OnOk result (AreDocumentsRight H.hash query.now proof.now) }
    ensures marks { OnOk result
        (AreMarks (bounds_of proof.now) (lanes_of query.now proof.now) proof.now.met work.new.marks) }
    ensures free { OnOk result (AreNoted [] work.new.marks) }
    ensures fault { IfErr result (IsDocumentsFault H.hash query.now proof.now) }
    ensures room { work.new.room ≡ work.old.room }
    ensures cost { steps.new ≤ steps.old + 2 ^ 52 }
    ensures most { steps.new ≤ steps.old + 4 * items_of_documents proof.now.docs }
{
    let Some(docs) = proof.docs() else {
        return Ok(());
    };
    proof.facts();
    let mut left = docs;
    for index in 0..proof.met() {
        let Some(doc) = left.next(steps) else {
            unreachable!()
        };
        let score = document::<H>(&doc, query, terms, steps)?;
        noted(work, index, score, threshold, steps);
    }
    Ok(())
}
