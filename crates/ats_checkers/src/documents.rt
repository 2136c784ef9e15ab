//! `both`: the check of a proof of all documents that have every term of a query.

ghost use Rattle.std.specs.Prelude.{◌≡◌, ℕ, List, IfOk, IfErr};
ghost use Rattle.ats_terms.specs.Query.{IsQuery};
ghost use Rattle.ats_proof.specs.Value.{Proof};
ghost use Rattle.ats_all_check.specs.Bytes.{AreAcceptedBytes};
ghost use Rattle.ats_all_check.specs.Documents.{documents_shown};
ghost use Rattle.ats_all_check.specs.Headline.{AreBothOrCollide};
ghost use Rattle.ats_all_check.specs.Rules.{AcceptsBoth};
ghost use Rattle.ats_plan.specs.Plan.{ComesToShelf};
ghost use Rattle.ats_plan.specs.Runs.{IsDone, IsStopped};
ghost use Rattle.ats_console.specs.Print.{lines_of_documents};
ghost use Rattle.ats_console.specs.Kinds.{CheckStop, both_kind};
ghost use Rattle.ats_console.specs.declared.stops.Stop.TheVariants.{Shelf as AtShelf, Memory};
ghost use Rattle.ats_checkers.specs.Commands.{both_plan};

use ats_all_check::{both_documents, check_both};
use ats_base::Shelf;
use ats_bound::Work;
use ats_console::{Stop, document_lines, read, refused, rejected};
use ats_hash::{Hash32, Steps};
use ats_proof::ProofView;
use ats_refusal::{Rejection, both_refusal_words};
use ats_terms::Query;
use std::alloc::Global;

// The lines of the documents that an accepted proof shows.
fn shown_to_lines(alloc: Global, proof: &ProofView<'_>) -> Result<Vec<u8>, Stop>
    requires { (H : List ℕ → List ℕ) × (root : List ℕ) × (query : List (List ℕ × ℕ)) × AcceptsBoth H root query proof.now }
    ensures ok { IfOk result (λ text. text.items ≡ lines_of_documents (documents_shown proof.now)) }
    ensures stop { IfErr result (λ stop. stop ≡ Memory) }
{
    let Ok(documents) = both_documents(alloc, proof) else {
        return Err(Stop::Memory);
    };
    Ok(document_lines(alloc, &documents)?)
}

// The lines of the documents of bytes that are accepted.
fn both_to_lines<H: Hash32>(
    alloc: Global,
    bytes: &[u8],
    root: &[u8; 32],
    query: &Query,
) -> Result<Vec<u8>, Stop>
    ensures ok { IfOk result (λ text. (proof : Proof) × AreAcceptedBytes H.hash root.now query.now bytes.now proof
        × AreBothOrCollide H.hash root.now query.now proof × (text.items ≡ lines_of_documents (documents_shown proof))) }
    ensures stop { IfErr result (CheckStop (both_kind H.hash root.now query.now) bytes.now) }
    ensures asked { IsQuery query.now }
{
    // A query has terms within the limits.
    let _facts = query.len();
    let proof = match ProofView::read(bytes) {
        Ok(proof) => proof,
        Err(fault) => return Err(rejected(Rejection::Shape(fault))),
    };
    let Ok(mut work) = Work::with_room(alloc, proof.met()) else {
        return Err(Stop::Memory);
    };
    let mut steps = Steps::new(alloc);
    if let Err(refusal) = check_both::<H>(root, query, &proof, &mut work, &mut steps) {
        return Err(refused(both_refusal_words(refusal)));
    }
    shown_to_lines(alloc, &proof)
}

/// The lines of `both`. The query is read before the file.
pub(crate) fn both<H: Hash32, S: Shelf>(
    alloc: Global,
    root: &[u8; 32],
    query: &str,
    proof: &str,
    shelf: &mut S,
) -> Result<Vec<u8>, Stop>
    ensures ok { IfOk result (λ text. IsDone
        (both_plan H.hash (record { root = root.now; query = query.now; proof = proof.now }))
        (S.told shelf.old) (S.told shelf.new) text.items) }
    ensures stop { IfErr result (IsStopped AtShelf Memory
        (both_plan H.hash (record { root = root.now; query = query.now; proof = proof.now }))
        (S.told shelf.old) (S.told shelf.new)) }
    ensures unread { (ComesToShelf
        (both_plan H.hash (record { root = root.now; query = query.now; proof = proof.now })) → ⊥)
        → shelf.new ≡ shelf.old }
{
    let asked = Query::read(alloc, query)?;
    let bytes = read::proof(alloc, proof, shelf)?;
    both_to_lines::<H>(alloc, bytes.as_slice(), root, &asked)
}
