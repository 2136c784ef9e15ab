//! The rows of a shard, merged with those of the shards before it.

ghost use Rattle.std.specs.Prelude.{◌≡◌, ◌<◌, ◌≤◌, ◌+◌, ◌*◌, ◌^◌, ℕ, List, length, map};
ghost use Rattle.ats_client.specs.Rows.{IsLeftByCheck, rows_of};
ghost use Rattle.ats_catalog_check.specs.Merge.{in_shard, merge, AreFalling};
ghost use Rattle.ats_catalog_check.specs.Inner.Kept.{AreBefore, IsKeptIf};
ghost use Rattle.ats_catalog_check.specs.Inner.Places.{AreOrdered};

use crate::inserting::insert;
use crate::row::{CatalogRow, CatalogRows};
use ats_bound::Work;
use ats_client::row;
use ats_hash::Steps;
use ats_impact::Row;
use ats_proof::ProofView;

// A row of the shard with this number.
fn in_shard(shard: u32, row: &Row) -> CatalogRow
    ensures { result ≡ in_shard shard row.now }
{
    CatalogRow {
        shard,
        doc: row.doc,
        lower: row.lower,
        upper: row.upper,
    }
}

/// Merges the rows of a proof with those that are kept. Says whether they all fall and are at most `top`; else which ones
/// are kept is unspecified.
pub(crate) fn merge_rows(
    proof: &ProofView<'_>,
    work: &Work,
    threshold: u64,
    shard: u32,
    top: u32,
    rows: &mut CatalogRows,
    steps: &mut Steps,
) -> bool
    requires left { (query : List (List ℕ × ℕ)) × IsLeftByCheck query proof.now work.now.marks threshold }
    requires room { top ≤ rows.old.room }
    requires small { top ≤ 1000 }
    requires falling { AreFalling top rows.old.rows }
    requires before { AreBefore shard rows.old.rows }
    requires ordered { AreOrdered rows.old.rows }
    requires count { steps.old ≤ 2 ^ 62 + 2 ^ 60 }
    ensures kept { (query : List (List ℕ × ℕ)) → IsLeftByCheck query proof.now work.now.marks threshold
        → IsKeptIf top result rows.new.rows (merge rows.old.rows (map (in_shard shard) (rows_of query proof.now))) }
    ensures room { rows.new.room ≡ rows.old.room }
    ensures steps { steps.new ≤ steps.old + (top + 3) * length proof.now.answer }
{
    for i in 0..proof.answers() {
        let row = in_shard(shard, &row(proof, work, threshold, i, steps));
        if !insert(rows, row, top, steps) {
            return false;
        }
    }
    true
}
