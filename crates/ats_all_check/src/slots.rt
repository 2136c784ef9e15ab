//! Whether slots say that all their terms are present.

ghost use Rattle.std.specs.Prelude.{◌≡◌, ◌+◌, ◌≤◌, ◌^◌, length};
ghost use Rattle.ats_client.specs.Inner.SeenTerms.{document_of};
ghost use Rattle.ats_proof.specs.SeenDocs.{section_of};
ghost use Rattle.ats_all_check.specs.Documents.{are_present, shows_all};

use ats_hash::Steps;
use ats_proof::{DocView, ProofView};

/// Whether each term of the query is present.
pub(crate) fn are_present(proof: &ProofView<'_>, steps: &mut Steps) -> bool
    requires space { steps.old ≤ 2 ^ 63 }
    ensures all { result ≡ are_present proof.now.slots }
    ensures cost { steps.new ≤ steps.old + length proof.now.slots }
{
    for i in 0..proof.terms() {
        if !proof.slot(i, steps).present {
            return false;
        }
    }
    true
}

/// Whether a met document has each of so many present terms, by its slots.
pub(crate) fn shows_all(doc: &DocView<'_>, terms: u32, steps: &mut Steps) -> bool
    requires each { terms ≡ length (section_of doc.now).slots }
    requires space { steps.old ≤ 2 ^ 63 }
    ensures all { result ≡ shows_all (document_of doc.now) }
    ensures cost { steps.new ≤ steps.old + terms }
{
    for i in 0..terms {
        if !doc.slot(i, steps).present {
            return false;
        }
    }
    true
}
