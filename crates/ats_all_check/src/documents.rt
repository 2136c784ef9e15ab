//! The documents that an accepted proof shows.

ghost use Rattle.std.specs.Prelude.{◌≡◌, ◌≤◌, ◌^◌, ℕ, List, length, IfOk};
ghost use Rattle.std.specs.List.{All};
ghost use Rattle.ats_proof.specs.SeenDocs.{ids_of, doc_leaves_of, documents_of, sections_of};
ghost use Rattle.ats_proof.specs.Value.{TermsSection, AreDocuments};
ghost use Rattle.ats_all_check.specs.Documents.{documents_shown, with_all};
ghost use Rattle.ats_all_check.specs.Inner.Met.{documents_left};
ghost use Rattle.ats_all_check.specs.Rules.{AcceptsBoth};

use crate::slots::{are_present, shows_all};
use ats_bound::{OutOfMemory, Picks};
use ats_hash::Steps;
use ats_proof::{DocsView, ProofView};
use std::alloc::Global;

// The met documents that have each of so many present terms.
fn with_all(
    alloc: Global,
    docs: DocsView<'_>,
    terms: u32,
    steps: &mut Steps,
) -> Result<Picks, OutOfMemory>
    requires parts { AreDocuments (length (ids_of docs)) terms (documents_of docs) }
    requires few { length (ids_of docs) ≤ 65536 }
    requires terms { terms ≤ 32 }
    requires space { steps.old ≤ 2 ^ 32 }
    ensures { IfOk result (λ documents. documents ≡ with_all (documents_left docs.entry)) }
{
    let mut left = docs;
    let mut documents = Picks::new(alloc);
    while let Some(doc) = left.next(steps) {
        if shows_all(&doc, terms, steps) {
            documents.push(doc.doc())?;
        }
    }
    Ok(documents)
}

/// The documents that a proof shows which [`check_both`](crate::check_both) accepts, counted from 0 and ascending: none if
/// a term of the query is absent, else the met documents that have every term.
pub fn both_documents(alloc: Global, proof: &ProofView<'_>) -> Result<Picks, OutOfMemory>
    requires { (H : List ℕ → List ℕ) × (root : List ℕ) × (query : List (List ℕ × ℕ)) × AcceptsBoth H root query proof.now }
    ensures { IfOk result (λ documents. documents ≡ documents_shown proof.now) }
{
    proof.facts();
    let mut steps = Steps::new(alloc);
    if !are_present(proof, &mut steps) {
        return Ok(Picks::new(alloc));
    }
    match proof.docs() {
        Some(docs) => with_all(alloc, docs, proof.terms(), &mut steps),
        None => Ok(Picks::new(alloc)),
    }
}
