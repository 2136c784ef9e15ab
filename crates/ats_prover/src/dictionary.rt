//! What a proof shows of the dictionary.

ghost use Rattle.std.specs.Prelude.{◌≡◌, ◌+◌, ◌≤◌, ◌<◌, ◌*◌, ◌^◌, ◌++◌, ℕ, length, map, IfOk, OnOk};
ghost use Rattle.std.specs.List.{All, flat_map};
ghost use Rattle.std.specs.List.Sorted.{IsStrictlyIncreasing};
ghost use Rattle.ats_tree.specs.Elided.{elided_digests};
ghost use Rattle.ats_tree.specs.Kept.{kept_digests};
ghost use Rattle.ats_dict.specs.Dictionary.{IsDictionary, dict_leaves};
ghost use Rattle.ats_proof.specs.Parts.{counted};
ghost use Rattle.ats_proof.specs.Value.{digest_fields, entry_fields, slot_fields};
ghost use Rattle.ats_honest.specs.Terms.{AreNeeded, AreSpots, needs, place, shown_entry, slot_of};
ghost use Rattle.ats_honest.specs.Inner.Terms.{lower};
ghost use Rattle.ats_prover.specs.Inner.Writing.{put};

use crate::fault::OutOfMemory;
use crate::shown::write_rest;
use ats_dict::{Dictionary, Spot};
use ats_hash::HashKind;
use ats_proof::ProofWriter;
use ats_terms::Query;
use ats_tree::{Digests, Leaves, Nodes};
use std::alloc::Global;

/// The place of each term of the query in the dictionary.
pub(crate) fn spots(
    alloc: Global,
    dictionary: &Dictionary,
    query: &Query,
) -> Result<Vec<Spot>, OutOfMemory>
    ensures spots { IfOk result (λ spots. AreSpots dictionary.now query.now spots.items) }
    ensures few { IfOk result (λ spots. length spots.items ≤ 32) }
    ensures low { IfOk result (λ spots. All (λ spot. lower spot ≤ 2 ^ 24) spots.items) }
{
    // Positions have 32 bits, and so has the position after a lower neighbour.
    prove!(dictionary.len() >= 2);
    let mut spots = Vec::new(alloc);
    for i in 0..query.len() {
        spots.push(dictionary.find(query.term(i)))?;
    }
    Ok(spots)
}

// Writes the number of these positions, then their leaves.
fn write_leaves(
    writer: &mut ProofWriter,
    dictionary: &Dictionary,
    positions: &[u32],
) -> Result<(), OutOfMemory>
    requires dictionary { IsDictionary dictionary.now }
    requires within { All (λ p. p < length dictionary.now + 2) positions.now }
    requires few { length positions.now ≤ 64 }
    requires space { writer.old.asked ≤ 2 ^ 60 }
    ensures fields { OnOk result
        (writer.new ≡ put writer.old (counted 2 entry_fields (map (shown_entry dictionary.now) positions.now))) }
    ensures size { OnOk result (writer.new.asked ≤ writer.old.asked + 2 ^ 13) }
{
    writer.count16(positions.len() as u16)?;
    for p in positions {
        writer.dict_leaf(*p, &dictionary.leaf(*p))?;
    }
    Ok(())
}

/// Writes the leaves at these positions, the digests that the tree needs besides, and a slot for each term.
pub(crate) fn write_terms<H: HashKind>(
    alloc: Global,
    writer: &mut ProofWriter,
    dictionary: &Dictionary,
    nodes: &Nodes,
    positions: &[u32],
    spots: &[Spot],
) -> Result<(), OutOfMemory>
    requires nodes { nodes.now ≡ kept_digests H.hash (dict_leaves dictionary.now) }
    requires rise { IsStrictlyIncreasing positions.now }
    requires within { All (λ p. p < length dictionary.now + 2) positions.now }
    requires few { length positions.now ≤ 64 }
    requires terms { length spots.now ≤ 32 }
    requires space { writer.old.asked ≤ 2 ^ 58 }
    ensures fields { OnOk result
        (writer.new ≡ put writer.old (counted 2 entry_fields (map (shown_entry dictionary.now) positions.now)
        ++ counted 2 digest_fields (elided_digests H.hash (dict_leaves dictionary.now) positions.now)
        ++ flat_map slot_fields (map (slot_of positions.now) spots.now))) }
    ensures size { OnOk result (writer.new.asked ≤ writer.old.asked + 2 ^ 24) }
{
    // A dictionary's leaves have terms of at most 64 bytes, and positions of 32 bits.
    prove!(dictionary.len() >= 2);
    write_leaves(writer, dictionary, positions)?;
    let mut digests = Digests::new(alloc);
    write_rest::<H>(writer, nodes, positions, spots, &mut digests)
}
