//! Checks one met document against its leaf and the present terms of the query.

ghost use Rattle.std.specs.Prelude.{◌≡◌, ◌<◌, ◌≤◌, ◌+◌, ◌*◌, ◌^◌, ℕ, length, map, OnOk, IfOk, IfErr};
ghost use Rattle.std.specs.List.{All};
ghost use Rattle.std.specs.List.Sorted.{IsNonDecreasing};
ghost use Rattle.ats_commit.specs.Ours.{asked_term};
ghost use Rattle.ats_bound.specs.Lookup.{looked_score};
ghost use Rattle.ats_proof.specs.declared.record.Slot.{Slot};
ghost use Rattle.ats_proof.specs.SeenDocs.{section_of};
ghost use Rattle.ats_proof.specs.Value.{items_of_section};
ghost use Rattle.ats_client.specs.declared.kept_terms.PresentTerm.{PresentTerm};
ghost use Rattle.ats_refusal.specs.declared.proof.Refusal.TheVariants.{TermSlot};
ghost use Rattle.ats_client.specs.Bracketing.{impact_shown};
ghost use Rattle.ats_client.specs.Documents.{term_shown, IsTermsTree, IsTermsFault, IsDocumentRight, document_rules};
ghost use Rattle.ats_client.specs.Groups.{slot_at};
ghost use Rattle.ats_client.specs.Inner.KeptTerms.{numbers_of, bare_lanes};
ghost use Rattle.ats_base.specs.Rules.{IsFirstFault};
ghost use Rattle.ats_client.specs.Inner.SeenTerms.{terms_left, document_of};
ghost use Rattle.ats_client.specs.Slots.{ShowsTerm};

use crate::kept_terms::{PresentTerm, PresentTerms};
use crate::marking::weighed;
use crate::rebuilding::rebuilt;
use crate::walk::Walk;
use ats_hash::{Hash32, Steps};
use ats_proof::{DocView, TermsView};
use ats_refusal::Refusal;
use ats_terms::Query;

// Checks that what is shown of the document's terms is part of the tree that its leaf names.
fn rooted<'a, H: Hash32>(doc: &DocView<'a>, steps: &mut Steps) -> Result<(), Refusal>
    requires space { steps.old ≤ 2 ^ 63 }
    ensures holds { OnOk result (IsTermsTree H.hash (document_of doc.now)) }
    ensures fault { IfErr result (IsTermsFault H.hash (document_of doc.now)) }
    ensures cost { steps.new ≤ steps.old + 2 ^ 34 }
    ensures most { steps.new
        ≤ steps.old + 3 * length (section_of doc.now).leaves + 2 * length (section_of doc.now).digests + 1 }
{
    let leaf = doc.leaf();
    let mut section = doc.terms();
    let Some(digest) = rebuilt::<H, _>(leaf.leaves, &mut section, steps) else {
        return Err(Refusal::TermsMisfit { doc: doc.doc() });
    };
    if digest != leaf.root {
        return Err(Refusal::TermsRoot { doc: doc.doc() });
    }
    Ok(())
}

// The impact that the slot of a present term shows, 0 if it shows that the document has no such term.
fn impact<'a>(
    doc: &DocView<'a>,
    i: u32,
    number: u32,
    query: &Query,
    walk: &mut Walk<TermsView<'a>>,
    steps: &mut Steps,
) -> Result<u16, Refusal>
    requires within { i < length (section_of doc.now).slots }
    requires number { number < length query.now }
    requires leaves { terms_left walk.old.all ≡ (section_of doc.now).leaves }
    requires space { steps.old ≤ 2 ^ 62 + 2 ^ 58 }
    ensures right { OnOk result
        (ShowsTerm (map term_shown (section_of doc.now).leaves) (asked_term query.now number)
        (slot_at (section_of doc.now).slots i)) }
    ensures impact { IfOk result (λ impact. impact ≡ impact_shown (section_of doc.now) i) }
    ensures told { IfErr result (λ refusal. refusal ≡ TermSlot (document_of doc.now).doc number) }
    ensures wrong { IfErr result (λ refusal.
        ¬ ShowsTerm (map term_shown (section_of doc.now).leaves)
        (asked_term query.now number) (slot_at (section_of doc.now).slots i)) }
    ensures leaves { walk.new.all ≡ walk.old.all }
    ensures place { walk.new.place ≡ (slot_at (section_of doc.now).slots i).index }
    ensures cost { steps.new ≤ steps.old + 2 ^ 18 }
    ensures most { walk.old.place ≤ (slot_at (section_of doc.now).slots i).index
        → steps.new + length (terms_left walk.new.left) ≤ steps.old + length (terms_left walk.old.left) + 2 }
{
    let slot = doc.slot(i, steps);
    if !walk.shows(query.term(number as usize), slot, steps) {
        return Err(Refusal::TermSlot {
            doc: doc.doc(),
            term: number,
        });
    }
    if !slot.present {
        return Ok(0);
    }
    let Some(term) = walk.leaf(slot.index, steps) else {
        unreachable!()
    };
    Ok(term.leaf.impact)
}

/// Checks what is shown of a met document's terms: its tree, then the slots of the present terms. Returns the
/// document's score that they show.
pub(crate) fn document<'a, H: Hash32>(
    doc: &DocView<'a>,
    query: &Query,
    terms: &PresentTerms,
    steps: &mut Steps,
) -> Result<u64, Refusal>
    requires each { length (section_of doc.now).slots ≡ length terms.now }
    requires spots { IsNonDecreasing (map (λ (slot : Slot). slot.index) (section_of doc.now).slots) }
    requires numbers { All (λ (term : PresentTerm). term.number < length query.now) terms.now }
    requires space { steps.old ≤ 2 ^ 62 + 2 ^ 56 }
    ensures right { OnOk result (IsDocumentRight H.hash query.now (numbers_of terms.now) (document_of doc.now)) }
    ensures score { IfOk result (λ score. score
        ≡ looked_score (λ i other. impact_shown (section_of doc.now) i) (bare_lanes terms.now)
        (document_of doc.now).doc) }
    ensures small { IfOk result (λ score. score ≤ 2 ^ 38) }
    ensures fault { IfErr result
        (IsFirstFault (document_rules H.hash query.now (numbers_of terms.now) (document_of doc.now))) }
    ensures cost { steps.new ≤ steps.old + 2 ^ 35 }
    ensures most { steps.new ≤ steps.old + 4 * items_of_section (section_of doc.now) + 1 }
{
    rooted::<H>(doc, steps)?;
    let mut walk = Walk::over(doc.terms());
    let mut score = 0;
    for i in 0..terms.len() {
        let PresentTerm {
            number,
            coefficient,
        } = terms.get(i);
        let impact = impact(doc, i, number, query, &mut walk, steps)?;
        score += weighed(coefficient, impact);
    }
    Ok(score)
}
