//! The check of what a catalog's proof shows.

ghost use Rattle.std.specs.Prelude.{◌≡◌, ◌≢◌, ◌↔◌, ◌<◌, ◌≤◌, ◌+◌, ◌*◌, ◌^◌, ℕ, List, [], length, map, max, sum, take, true, false, IsTrue, IsOk, OnOk, IfOk, IfErr};
ghost use Rattle.ats_proof.specs.Value.{Proof, IsProof, items_of};
ghost use Rattle.ats_catalog_bytes.specs.Catalog.{root_over};
ghost use Rattle.ats_catalog_bytes.specs.Seen.{framed_of};
ghost use Rattle.ats_catalog_bytes.specs.Value.{Framed, frame_at, shown_roots};
ghost use Rattle.ats_catalog_check.specs.Accepts.{AcceptsCatalog, IsFirstCatalogRefusal, IsShardRejection, AreRowsOf, MeetAtMost, HaveItems};
ghost use Rattle.ats_catalog_check.specs.Headline.{IsCatalogTopOrCollides};
ghost use Rattle.ats_catalog_check.specs.Merge.{floor, AreFalling};
ghost use Rattle.ats_catalog_check.specs.Inner.Checked.{IsLeft, AreLeft, ShardsFail};
ghost use Rattle.ats_catalog_check.specs.Inner.Kept.{AreBefore};
ghost use Rattle.ats_catalog_check.specs.Inner.Places.{AreOrdered};

use crate::merging::merge_rows;
use crate::row::CatalogRows;
use ats_bound::Work;
use ats_catalog_bytes::{CatalogView, Shard, root_of_view};
use ats_client::{check_shown, rest};
use ats_hash::{Hash32, Steps};
use ats_impact::Top;
use ats_proof::ProofView;
use ats_refusal::{CatalogRefusal, Rejection};
use ats_terms::Query;

// Checks the proof of one shard, and merges its rows with those of the shards before it, if these fall. Returns whether they
// still do, and the shard's rest.
fn check_shard<H: Hash32>(
    query: &Query,
    one: &Shard<'_>,
    number: u32,
    top: u32,
    fell: bool,
    work: &mut Work,
    rows: &mut CatalogRows,
    steps: &mut Steps,
) -> Result<(bool, u64), Rejection>
    requires work { (proof : Proof) → IsProof (framed_of one.now).bytes proof → length proof.met ≤ work.old.room }
    requires room { top ≤ rows.old.room }
    requires small { top ≤ 1000 }
    requires falling { fell ≡ true → AreFalling top rows.old.rows × AreBefore number rows.old.rows × AreOrdered rows.old.rows }
    requires count { steps.old ≤ 2 ^ 62 }
    ensures left { IfOk result (λ found. IsLeft H.hash query.now top number (framed_of one.now) rows.old.rows fell rows.new.rows found.0 found.1) }
    ensures refused { IfErr result (IsShardRejection H.hash query.now (framed_of one.now)) }
    ensures work_room { work.new.room ≡ work.old.room }
    ensures rows_room { rows.new.room ≡ rows.old.room }
    ensures steps { (items : ℕ) → ((proof : Proof) → IsProof (framed_of one.now).bytes proof → items_of proof ≤ items)
        → steps.new ≤ steps.old + (top + 8) * items + 64 }
{
    let proof = match ProofView::read(one.bytes) {
        Ok(proof) => proof,
        Err(fault) => return Err(Rejection::Shape(fault)),
    };
    let threshold = match check_shown::<H>(one.root, query, &proof, work, steps) {
        Ok(threshold) => threshold,
        Err(refusal) => return Err(Rejection::Check(refusal)),
    };
    let rest = rest(&proof, work, threshold, steps);
    let falls = fell && merge_rows(&proof, work, threshold, number, top, rows, steps);
    Ok((falls, rest))
}

// Checks the proofs of all shards in their order, and merges their rows. Returns whether all fall and are at most `top`, and
// the greatest rest.
fn check_shards<H: Hash32>(
    query: &Query,
    view: &CatalogView<'_>,
    top: u32,
    work: &mut Work,
    rows: &mut CatalogRows,
    steps: &mut Steps,
) -> Result<(bool, u64), CatalogRefusal>
    requires work { MeetAtMost view.now work.old.room }
    requires room { top ≤ rows.old.room }
    requires small { top ≤ 1000 }
    requires count { steps.old ≤ 2 ^ 61 }
    ensures left { IfOk result (λ found. AreLeft H.hash query.now top view.now rows.new.rows found.0 found.1) }
    ensures refused { IfErr result (ShardsFail H.hash query.now view.now) }
    ensures work_room { work.new.room ≡ work.old.room }
    ensures rows_room { rows.new.room ≡ rows.old.room }
    ensures steps { (items : List ℕ) → HaveItems view.now items
        → steps.new ≤ steps.old + (top + 8) * sum items + 64 * length view.now }
{
    view.facts();
    rows.clear();
    let mut shards = view.cursor();
    let mut fall = true;
    let mut most = 0;
    for shard in 0..view.shards() {
        let Some(one) = shards.pass() else {
            unreachable!()
        };
        match check_shard::<H>(query, &one, shard, top, fall, work, rows, steps) {
            Ok((falls, rest)) => {
                fall = falls;
                most = greater(most, rest);
            }
            Err(rejection) => return Err(CatalogRefusal::Shard { shard, rejection }),
        }
    }
    Ok((fall, most))
}

fn greater(a: u64, b: u64) -> u64
    ensures { result ≡ max a b }
{
    if a < b { b } else { a }
}

// What a document that is no row may score.
fn floor(rows: &CatalogRows, top: u32) -> u64
    requires { 1 ≤ top }
    ensures { result ≡ floor top rows.now.rows }
{
    if rows.len() != top {
        return 0;
    }
    rows.get(top - 1).lower
}

// Whether the rows fall, and no other document can score more than the floor.
fn is_settled(fall: bool, rest: u64, rows: &CatalogRows, top: u32) -> bool
    requires { 1 ≤ top }
    ensures { IsTrue result ↔ ((fall ≡ true) × (rest ≤ floor top rows.now.rows)) }
{
    fall && rest <= floor(rows, top)
}

/// Checks whether what a catalog's proof shows proves its answer right: the best `top` documents for the query in all
/// archives of the catalog that the root commits to, each scored in its own archive. The rows of the answer replace those
/// that were there. If a rule is broken, returns the first one.
///
/// It allocates nothing. The marks are begun again for each shard; room for [`MAX_MET`](crate::MAX_MET) is always enough.
/// After a refusal there are no rows. No proof is looked at under another root.
pub fn check_catalog<H: Hash32>(
    root: &[u8; 32],
    query: &Query,
    top: Top,
    view: &CatalogView<'_>,
    work: &mut Work,
    rows: &mut CatalogRows,
    steps: &mut Steps,
) -> Result<(), CatalogRefusal>
    requires work { MeetAtMost view.now work.old.room }
    requires room { top ≤ rows.old.room }
    requires count { steps.old ≤ 2 ^ 60 }
    ensures accepts { OnOk result (AcceptsCatalog H.hash root.now query.now top view.now) }
    ensures headline { OnOk result (IsCatalogTopOrCollides H.hash root.now query.now top view.now) }
    ensures rows { OnOk result (AreRowsOf query.now view.now rows.new.rows) }
    ensures exact { AcceptsCatalog H.hash root.now query.now top view.now → IsOk result }
    ensures refused { IfErr result (IsFirstCatalogRefusal H.hash root.now query.now top view.now) }
    ensures early { root_over H.hash (shown_roots view.now) ≢ root.now → steps.new ≡ steps.old + 2 * length view.now }
    ensures untouched { root_over H.hash (shown_roots view.now) ≢ root.now → work.new ≡ work.old }
    ensures emptied { IfErr result (λ refusal. rows.new.rows ≡ []) }
    ensures work_room { work.new.room ≡ work.old.room }
    ensures rows_room { rows.new.room ≡ rows.old.room }
    ensures steps { (items : List ℕ) → HaveItems view.now items
        → steps.new ≤ steps.old + (top + 8) * sum items + 66 * length view.now }
{
    view.facts();
    let most = top.get();
    let shown = root_of_view::<H>(view, steps);
    if shown != *root {
        rows.clear();
        return Err(CatalogRefusal::OtherRoot);
    }
    match check_shards::<H>(query, view, most, work, rows, steps) {
        Ok((fall, rest)) => {
            if is_settled(fall, rest, rows, most) {
                return Ok(());
            }
            rows.clear();
            Err(CatalogRefusal::NotSettled)
        }
        Err(refusal) => {
            rows.clear();
            Err(refusal)
        }
    }
}
