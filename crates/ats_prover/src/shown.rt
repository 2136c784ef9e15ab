//! Which leaves show where terms are, and what is written of a tree of terms besides its leaves.

ghost use Rattle.std.specs.Prelude.{◌≡◌, ◌+◌, ◌≤◌, ◌<◌, ◌*◌, ◌^◌, ◌++◌, ◌∷◌, ℕ, List, length, map, OnOk};
ghost use Rattle.std.specs.List.{All, flat_map};
ghost use Rattle.std.specs.List.Sorted.{IsStrictlyIncreasing};
ghost use Rattle.ats_tree.specs.Elided.{elided_digests};
ghost use Rattle.ats_tree.specs.Kept.{kept_digests};
ghost use Rattle.ats_proof.specs.Parts.{counted};
ghost use Rattle.ats_proof.specs.Value.{digest_fields, slot_fields};
ghost use Rattle.ats_honest.specs.Terms.{AreNeeded, needs, place, slot_of};
ghost use Rattle.ats_honest.specs.Inner.Terms.{lower};
ghost use Rattle.ats_prover.specs.Inner.Writing.{IsStarted, put};

use crate::fault::OutOfMemory;
use ats_dict::Spot;
use ats_hash::HashKind;
use ats_proof::{ProofWriter, Slot};
use ats_tree::{Digests, Nodes};

// Collects the positions that the terms need, term by term. Earlier positions are dropped.
fn keep_all_needed(spots: &[Spot], positions: &mut Vec<u32>) -> Result<(), OutOfMemory>
    requires low { All (λ spot. lower spot ≤ 2 ^ 24) spots.now }
    ensures { OnOk result (positions.new.items ≡ flat_map needs spots.now) }
{
    positions.clear();
    for spot in spots {
        match spot {
            Spot::At(p) => positions.push(*p)?,
            Spot::Between(p) => {
                positions.push(*p)?;
                positions.push(*p + 1)?;
            }
        }
    }
    Ok(())
}

/// Collects the positions of the leaves that show where the terms are. Earlier positions are dropped.
pub(crate) fn keep_positions(spots: &[Spot], positions: &mut Vec<u32>) -> Result<(), OutOfMemory>
    requires low { All (λ spot. lower spot ≤ 2 ^ 24) spots.now }
    ensures needed { OnOk result (AreNeeded spots.now positions.new.items) }
    ensures few { OnOk result (length positions.new.items ≤ 2 * length spots.now) }
{
    keep_all_needed(spots, positions)?;
    positions.sort_unstable();
    positions.dedup();
    Ok(())
}

/// How many of some rising numbers are below `number`.
pub(crate) fn place(numbers: &[u32], number: u32) -> usize
    requires { IsStrictlyIncreasing numbers.now }
    ensures place { result ≡ place numbers.now number }
    ensures within { result ≤ length numbers.now }
{
    numbers.partition_point(|n| *n < number)
}

/// Writes digests, one after another.
pub(crate) fn write_each_digest(
    writer: &mut ProofWriter,
    digests: &Digests,
) -> Result<(), OutOfMemory>
    requires started { IsStarted writer.old }
    requires few { length digests.now ≤ 65536 }
    requires space { writer.old.asked ≤ 2 ^ 61 }
    ensures fields { OnOk result (writer.new ≡ put writer.old (flat_map digest_fields digests.now)) }
    ensures size { OnOk result (writer.new.asked ≤ writer.old.asked + 2 ^ 21) }
{
    for digest in digests.as_slice() {
        writer.digest(digest)?;
    }
    Ok(())
}

/// Writes the number of digests in 2 bytes, then the digests.
pub(crate) fn write_digests(writer: &mut ProofWriter, digests: &Digests) -> Result<(), OutOfMemory>
    requires few { length digests.now ≤ 65535 }
    requires space { writer.old.asked ≤ 2 ^ 60 }
    ensures fields { OnOk result (writer.new ≡ put writer.old (counted 2 digest_fields digests.now)) }
    ensures size { OnOk result (writer.new.asked ≤ writer.old.asked + 2 ^ 22) }
{
    writer.count16(digests.len() as u16)?;
    write_each_digest(writer, digests)
}

// The slot of a term among the shown leaves.
fn slot(positions: &[u32], spot: &Spot) -> Slot
    requires rise { IsStrictlyIncreasing positions.now }
    requires few { length positions.now ≤ 64 }
    ensures { result ≡ slot_of positions.now spot.now }
{
    match spot {
        Spot::At(own) => Slot {
            present: true,
            index: place(positions, *own) as u16,
        },
        Spot::Between(lower) => Slot {
            present: false,
            index: place(positions, *lower) as u16,
        },
    }
}

/// Writes a slot for each term.
pub(crate) fn write_slots(
    writer: &mut ProofWriter,
    positions: &[u32],
    spots: &[Spot],
) -> Result<(), OutOfMemory>
    requires rise { IsStrictlyIncreasing positions.now }
    requires few { length positions.now ≤ 64 }
    requires terms { length spots.now ≤ 32 }
    requires started { IsStarted writer.old }
    requires space { writer.old.asked ≤ 2 ^ 60 }
    ensures fields { OnOk result
        (writer.new ≡ put writer.old (flat_map slot_fields (map (slot_of positions.now) spots.now))) }
    ensures size { OnOk result (writer.new.asked ≤ writer.old.asked + 2 ^ 7) }
{
    for spot in spots {
        writer.slot(slot(positions, spot))?;
    }
    Ok(())
}

/// Writes the digests that a tree needs besides the leaves at these positions, and a slot for each term. Earlier digests
/// are dropped.
pub(crate) fn write_rest<H: HashKind>(
    writer: &mut ProofWriter,
    nodes: &Nodes,
    positions: &[u32],
    spots: &[Spot],
    digests: &mut Digests,
) -> Result<(), OutOfMemory>
    requires nodes { (leaves : List (List ℕ)) × (nodes.now ≡ kept_digests H.hash leaves) × (length leaves ≤ 2 ^ 25)
        × All (λ p. p < length leaves) positions.now }
    requires rise { IsStrictlyIncreasing positions.now }
    requires few { length positions.now ≤ 64 }
    requires terms { length spots.now ≤ 32 }
    requires space { writer.old.asked ≤ 2 ^ 59 }
    ensures fields { (leaves : List (List ℕ)) → nodes.now ≡ kept_digests H.hash leaves → OnOk result
        (writer.new ≡ put writer.old (counted 2 digest_fields (elided_digests H.hash leaves positions.now)
        ++ flat_map slot_fields (map (slot_of positions.now) spots.now))) }
    ensures size { OnOk result (writer.new.asked ≤ writer.old.asked + 2 ^ 22 + 2 ^ 7) }
{
    digests.clear();
    nodes.elided(positions, digests)?;
    write_digests(writer, digests)?;
    write_slots(writer, positions, spots)
}
