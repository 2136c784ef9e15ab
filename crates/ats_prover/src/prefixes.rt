//! The fronts of the lists that a proof shows.

ghost use Rattle.std.specs.Prelude.{◌≡◌, ◌+◌, ◌≤◌, ◌<◌, ◌*◌, ◌^◌, ◌++◌, ℕ, length, map, take, IfOk, OnOk};
ghost use Rattle.std.specs.List.{All, flat_map};
ghost use Rattle.std.specs.List.Sorted.{IsStrictlyIncreasing};
ghost use Rattle.ats_lists.specs.KeptList.{kept_list};
ghost use Rattle.ats_postings.specs.Lists.{IsList};
ghost use Rattle.ats_lists.specs.declared.format.Format.{Format};
ghost use Rattle.ats_bound.specs.Schedule.{whole_lanes, IsCut, AreWholeLanes};
ghost use Rattle.ats_proof.specs.Parts.{counted};
ghost use Rattle.ats_proof.specs.Value.{id_fields, posting_fields, prefix_fields};
ghost use Rattle.ats_honest.specs.Honest.{placed, prefix_of, prefixes};
ghost use Rattle.ats_prover.specs.Inner.Nodes.{list_digests};
ghost use Rattle.ats_prover.specs.Inner.Writing.{put};

use crate::answer::write_met;
use crate::fault::OutOfMemory;
use crate::shown::{place, write_digests};
use ats_bound::Lane;
use ats_hash::HashKind;
use ats_lists::ListDigests;
use ats_postings::Entry;
use ats_proof::ProofWriter;
use ats_tree::Digests;
use std::alloc::Global;

// Writes the number of entries, then the entries, each with its document's place among the met ids.
fn write_entries(
    writer: &mut ProofWriter,
    met: &[u32],
    entries: &[Entry],
) -> Result<(), OutOfMemory>
    requires rise { IsStrictlyIncreasing met.now }
    requires documents { length met.now ≤ 65536 }
    requires few { length entries.now ≤ 65536 }
    requires impacts { All (λ entry. entry.impact < 2 ^ 16) entries.now }
    requires space { writer.old.asked ≤ 2 ^ 60 }
    ensures fields { OnOk result
        (writer.new ≡ put writer.old (counted 4 posting_fields (map (placed met.now) entries.now))) }
    ensures size { OnOk result (writer.new.asked ≤ writer.old.asked + 2 ^ 19) }
{
    writer.count32(entries.len() as u32)?;
    for entry in entries {
        writer.entry(place(met, entry.doc) as u32, entry.impact)?;
    }
    Ok(())
}

// Writes the first entries of a list, and the digests that they need.
fn write_prefix<H: HashKind>(
    alloc: Global,
    writer: &mut ProofWriter,
    met: &[u32],
    entries: &[Entry],
    kept: &ListDigests,
    count: u32,
) -> Result<(), OutOfMemory>
    requires rise { IsStrictlyIncreasing met.now }
    requires documents { length met.now ≤ 65536 }
    requires list { IsList 65536 entries.now }
    requires kept { (format : Format) × (kept.now ≡ kept_list H.hash format entries.now) }
    requires some { 1 ≤ count }
    requires within { count ≤ length entries.now }
    requires space { writer.old.asked ≤ 2 ^ 59 }
    ensures fields { (format : Format) → kept.now ≡ kept_list H.hash format entries.now → OnOk result
        (writer.new ≡ put writer.old (prefix_fields (prefix_of H.hash format met.now entries.now count))) }
    ensures size { OnOk result (writer.new.asked ≤ writer.old.asked + 2 ^ 23) }
{
    let mut digests = Digests::new(alloc);
    kept.front(alloc, count, &mut digests)?;
    write_entries(writer, met, &entries[..count as usize])?;
    write_digests(writer, &digests)
}

/// Writes the met documents, and the first entries of each list, as many as the cut says.
pub(crate) fn write_lists<H: HashKind>(
    alloc: Global,
    writer: &mut ProofWriter,
    met: &[u32],
    lanes: &[Lane<'_>],
    kept: &[&ListDigests],
    cut: &[u32],
) -> Result<(), OutOfMemory>
    requires rise { IsStrictlyIncreasing met.now }
    requires documents { length met.now ≤ 65536 }
    requires lanes { AreWholeLanes (whole_lanes lanes.now) }
    requires lists { All (λ lane. IsList 65536 lane.entries) (whole_lanes lanes.now) }
    requires kept { (format : Format) × (map (λ n. n.now) kept.now ≡ list_digests H.hash format (whole_lanes lanes.now)) }
    requires cut { IsCut (whole_lanes lanes.now) cut.now }
    requires space { writer.old.asked ≤ 2 ^ 58 }
    ensures fields { (format : Format) → map (λ n. n.now) kept.now ≡ list_digests H.hash format (whole_lanes lanes.now)
        → OnOk result (writer.new ≡ put writer.old (counted 4 id_fields met.now
        ++ flat_map prefix_fields (prefixes H.hash format met.now (whole_lanes lanes.now) cut.now))) }
    ensures size { OnOk result (writer.new.asked ≤ writer.old.asked + 2 ^ 29) }
{
    write_met(writer, met)?;
    for (i, lane) in lanes.iter().enumerate() {
        write_prefix::<H>(alloc, writer, met, lane.entries, kept[i], cut[i])?;
    }
    Ok(())
}
