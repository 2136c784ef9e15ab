//! The documents that a cut meets.

ghost use Rattle.std.specs.Prelude.{◌≡◌, ◌++◌, ◌≤◌, length, map, take, IfOk, OnOk};
ghost use Rattle.std.specs.List.{flat_map};
ghost use Rattle.ats_postings.specs.declared.entry.Entry.{Entry as Posting};
ghost use Rattle.ats_bound.specs.Cut.{ShownLane};
ghost use Rattle.ats_bound.specs.Schedule.{IsCut, shown, whole_lanes};
ghost use Rattle.ats_honest.specs.Honest.{AreMet};

use crate::fault::OutOfMemory;
use ats_bound::Lane;
use ats_postings::Entry;
use std::alloc::Global;

// Appends the documents that these entries name.
fn keep_entries(entries: &[Entry], met: &mut Vec<u32>) -> Result<(), OutOfMemory>
    ensures { OnOk result (met.new.items ≡ met.old.items ++ map (λ (e : Posting). e.doc) entries.now) }
{
    for entry in entries {
        met.push(entry.doc)?;
    }
    Ok(())
}

// The documents that the shown entries of a cut name, lane by lane.
fn named(alloc: Global, lanes: &[Lane<'_>], cut: &[u32]) -> Result<Vec<u32>, OutOfMemory>
    requires cut { IsCut (whole_lanes lanes.now) cut.now }
    ensures { IfOk result (λ named. named.items
        ≡ flat_map (λ (lane : ShownLane). map (λ (e : Posting). e.doc) lane.shown) (shown (whole_lanes lanes.now) cut.now)) }
{
    let mut named = Vec::new(alloc);
    for (i, lane) in lanes.iter().enumerate() {
        keep_entries(&lane.entries[..cut[i] as usize], &mut named)?;
    }
    Ok(named)
}

/// The documents that the shown entries of a cut name, ascending.
pub(crate) fn met_documents(
    alloc: Global,
    lanes: &[Lane<'_>],
    cut: &[u32],
) -> Result<Vec<u32>, OutOfMemory>
    requires cut { IsCut (whole_lanes lanes.now) cut.now }
    ensures { IfOk result (λ met. AreMet (shown (whole_lanes lanes.now) cut.now) met.items) }
{
    let mut met = named(alloc, lanes, cut)?;
    met.sort_unstable();
    met.dedup();
    Ok(met)
}
