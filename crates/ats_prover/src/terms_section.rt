//! What a proof shows of the terms of a document.

ghost use Rattle.std.specs.Prelude.{◌≡◌, ◌+◌, ◌≤◌, ◌<◌, ◌^◌, ◌++◌, ℕ, length, map, OnOk};
ghost use Rattle.std.specs.List.{All, flat_map};
ghost use Rattle.std.specs.List.Sorted.{IsStrictlyIncreasing};
ghost use Rattle.ats_terms.specs.Terms.{IsTerm};
ghost use Rattle.ats_tree.specs.Elided.{elided_digests};
ghost use Rattle.ats_tree.specs.Kept.{kept_digests};
ghost use Rattle.ats_doctree.specs.Sentinels.{terms_leaves};
ghost use Rattle.ats_proof.specs.Parts.{counted};
ghost use Rattle.ats_proof.specs.Value.{digest_fields, slot_fields, term_fields};
ghost use Rattle.ats_honest.specs.Documents.{IsTermSpot, shown_term};
ghost use Rattle.ats_honest.specs.Terms.{HaveSpots, slot_of};
ghost use Rattle.ats_honest.specs.Inner.Terms.{lower};
ghost use Rattle.ats_prover.specs.Inner.Writing.{IsSectionWritten, put};

use crate::fault::OutOfMemory;
use crate::present_terms::PresentTerms;
use crate::shown::{keep_positions, write_rest};
use ats_dict::Spot;
use ats_doctree::DocTerms;
use ats_hash::HashKind;
use ats_proof::{ProofWriter, TermLeaf};
use ats_tree::{Digests, Leaves, Nodes};
use std::alloc::Global;

/// Room for the places of terms among one document's, and for what is shown of them. It is lent from document to
/// document, so that they share its memory.
#[derive(Drop)]
pub(crate) struct Section {
    spots: Vec<Spot>,
    positions: Vec<u32>,
    digests: Digests,
}

impl Section {
    /// For no document. It allocates nothing.
    pub(crate) fn new(alloc: Global) -> Self {
        Section {
            spots: Vec::new(alloc),
            positions: Vec::new(alloc),
            digests: Digests::new(alloc),
        }
    }
}

// The place of a term among a document's terms, given as a place in the dictionary is.
fn spot(terms: &DocTerms, term: &[u8]) -> Spot
    requires { IsTerm term.now }
    ensures { IsTermSpot terms.now term.now result }
{
    match terms.find(term) {
        ats_doctree::Spot::At(p) => Spot::At(p),
        ats_doctree::Spot::Between(p) => Spot::Between(p),
    }
}

// Collects the place of each present term among a document's. Earlier places are dropped.
fn keep_spots(
    terms: &DocTerms,
    present: &PresentTerms<'_>,
    spots: &mut Vec<Spot>,
) -> Result<(), OutOfMemory>
    ensures spots { OnOk result (HaveSpots (IsTermSpot terms.now) present.now spots.new.items) }
    ensures few { OnOk result (length spots.new.items ≤ 32) }
    ensures low { OnOk result (All (λ spot. lower spot ≤ 2 ^ 24) spots.new.items) }
{
    // Positions have 32 bits, and so has the position after a lower neighbour.
    prove!(terms.len() >= 2);
    spots.clear();
    for i in 0..present.len() {
        spots.push(spot(terms, present.term(i)))?;
    }
    Ok(())
}

// Writes the number of these positions, then their leaves.
fn write_leaves(
    writer: &mut ProofWriter,
    terms: &DocTerms,
    positions: &[u32],
) -> Result<(), OutOfMemory>
    requires within { All (λ p. p < length terms.now + 2) positions.now }
    requires few { length positions.now ≤ 64 }
    requires space { writer.old.asked ≤ 2 ^ 60 }
    ensures fields { OnOk result
        (writer.new ≡ put writer.old (counted 2 term_fields (map (shown_term terms.now) positions.now))) }
    ensures size { OnOk result (writer.new.asked ≤ writer.old.asked + 2 ^ 13) }
{
    writer.count16(positions.len() as u16)?;
    for p in positions {
        let leaf = TermLeaf {
            term: terms.term(*p),
            impact: terms.impact(*p),
        };
        writer.term_leaf(*p, &leaf)?;
    }
    Ok(())
}

// Writes the leaves at these positions, the digests that the tree needs besides, and a slot for each term. Earlier
// digests are dropped.
fn write_shown<H: HashKind>(
    writer: &mut ProofWriter,
    terms: &DocTerms,
    nodes: &Nodes,
    positions: &[u32],
    spots: &[Spot],
    digests: &mut Digests,
) -> Result<(), OutOfMemory>
    requires nodes { nodes.now ≡ kept_digests H.hash (terms_leaves terms.now) }
    requires rise { IsStrictlyIncreasing positions.now }
    requires within { All (λ p. p < length terms.now + 2) positions.now }
    requires few { length positions.now ≤ 64 }
    requires slots { length spots.now ≤ 32 }
    requires space { writer.old.asked ≤ 2 ^ 58 }
    ensures fields { OnOk result
        (writer.new ≡ put writer.old (counted 2 term_fields (map (shown_term terms.now) positions.now)
        ++ counted 2 digest_fields (elided_digests H.hash (terms_leaves terms.now) positions.now)
        ++ flat_map slot_fields (map (slot_of positions.now) spots.now))) }
    ensures size { OnOk result (writer.new.asked ≤ writer.old.asked + 2 ^ 23) }
{
    // A document has at most 2^20 terms.
    prove!(terms.len() >= 2);
    write_leaves(writer, terms, positions)?;
    write_rest::<H>(writer, nodes, positions, spots, digests)
}

/// Writes the leaves that show where the present terms are among a document's, the digests that the tree of its terms
/// needs besides, and a slot for each present term.
pub(crate) fn write_section<H: HashKind>(
    writer: &mut ProofWriter,
    terms: &DocTerms,
    nodes: &Nodes,
    present: &PresentTerms<'_>,
    section: &mut Section,
) -> Result<(), OutOfMemory>
    requires nodes { nodes.now ≡ kept_digests H.hash (terms_leaves terms.now) }
    requires some { 1 ≤ length present.now }
    requires space { writer.old.asked ≤ 2 ^ 58 }
    ensures written { OnOk result (IsSectionWritten H.hash terms.now present.now writer.old writer.new) }
    ensures size { OnOk result (writer.new.asked ≤ writer.old.asked + 2 ^ 23) }
{
    // The terms rise, and so do those of the document, which are at most 2^20.
    prove!(present.len() <= 32);
    prove!(terms.len() >= 2);
    keep_spots(terms, present, &mut section.spots)?;
    keep_positions(&section.spots, &mut section.positions)?;
    write_shown::<H>(
        writer,
        terms,
        nodes,
        &section.positions,
        &section.spots,
        &mut section.digests,
    )
}
