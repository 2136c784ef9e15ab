//! The audit of a catalog's answer, index by index.

ghost use Rattle.std.specs.Prelude.{◌≡◌, ◌<◌, ◌≤◌, ◌∷◌, [], ℕ, List, length, IfOk, IfErr, OnOk, OnErr, option_map, slice_get};
ghost use Rattle.ats_commit.specs.Archive.{Archive};
ghost use Rattle.ats_proof.specs.Value.{Proof, IsProof};
ghost use Rattle.ats_client.specs.Strings.{proof_collision};
ghost use Rattle.ats_catalog_bytes.specs.Seen.{framed_of};
ghost use Rattle.ats_catalog_check.specs.Accepts.{IsShardRight};
ghost use Rattle.ats_catalog_check.specs.Bytes.{AreVerifiedRows, IsRefusedCatalog};
ghost use Rattle.ats_catalog_check.specs.Strings.{in_proof, difference_at};
ghost use Rattle.ats_client.specs.Sections as proofs;
ghost use Rattle.ats_catalog_audit.specs.Inner.Firsts.{IsFirstWith};
ghost use Rattle.ats_catalog_audit.specs.UnderWay.{IsAuditFault, IsUnderWay, HasTaken};
ghost use Rattle.ats_catalog_audit.specs.Verdicts.{difference_of, IsCatalogVerdict};

use crate::fault::AuditFault;
use crate::memory::OutOfMemory;
use crate::roots::first_roots_clash;
use crate::verdict::{CatalogClash, CatalogVerdict, StringPlace};
use ats_catalog_bytes::{CatalogView, Shard, ShardCursor, catalog_root, root_of_view};
use ats_catalog_check::{CatalogFault, CatalogRefusal, CatalogRows, verify_catalog};
use ats_client::{Clash, first_clash};
use ats_hash::{Hash32, Steps};
use ats_impact::Top;
use ats_index::Index;
use ats_proof::ProofView;
use ats_terms::Query;
use std::alloc::Global;
use std::marker::{Model, PhantomData};

/// An audit of the proof of a catalog's answer that has taken the indexes of the first shards.
///
/// It keeps the root of each, 32 bytes, and the first collision that the proof of one of them has with its archive.
#[derive(Drop)]
pub struct CatalogAudit<'a, H: Hash32> {
    query: &'a Query,
    shown: CatalogView<'a>,
    // That of the roots that are shown. The check under it says all but whether it is the catalog's.
    root: [u8; 32],
    checked: Result<CatalogRows, CatalogRefusal>,
    left: ShardCursor<'a>,
    roots: Vec<[u8; 32]>,
    clash: Option<CatalogClash>,
    kind: PhantomData<H>,
}

impl<'a, H: Hash32> Model for CatalogAudit<'a, H> {
    ghost use Rattle.std.specs.Prelude.{◌≤◌, length, IfOk, option_map};
    ghost use Rattle.std.specs.List.{All};
    ghost use Rattle.ats_catalog_bytes.specs.Seen.{shards_left};
    ghost use Rattle.ats_catalog_check.specs.Accepts.{IsShardRight};
    ghost use Rattle.ats_catalog_audit.specs.AuditState.{AuditState};
    ghost use Rattle.ats_catalog_audit.specs.Verdicts.{difference_of};

    ghost Value = { AuditState };

    ghost view = { λ a. record {
      query = a.query.now;
      shown = a.shown;
      root = a.root;
      checked = a.checked;
      left = shards_left a.left;
      roots = a.roots.items;
      first = option_map difference_of a.clash;
    } };

    ghost invariant = { λ a. (length a.roots.items ≤ 4096)
        × IfOk a.checked (λ rows. All (IsShardRight H.hash a.query.now) (shards_left a.left)) };
}

// What the check of bytes finds under a root: the rows of the answer, or the first rule that is broken.
fn check<H: Hash32>(
    alloc: Global,
    bytes: &[u8],
    root: &[u8; 32],
    query: &Query,
    top: Top,
) -> Result<Result<CatalogRows, CatalogRefusal>, AuditFault>
    ensures accepted { IfOk result (λ checked. IfOk checked (λ rows.
        AreVerifiedRows H.hash root.now query.now top bytes.now rows.rows)) }
    ensures refused { IfOk result (λ checked. IfErr checked (IsRefusedCatalog H.hash root.now query.now top bytes.now)) }
    ensures fault { IfErr result (IsAuditFault bytes.now) }
{
    match verify_catalog::<H>(alloc, bytes, root, query, top) {
        Ok(rows) => Ok(Ok(rows)),
        Err(CatalogFault::Refused(refusal)) => Ok(Err(refusal)),
        Err(CatalogFault::Shape(fault)) => Err(AuditFault::BadShape(fault)),
        Err(CatalogFault::OutOfMemory) => Err(AuditFault::OutOfMemory),
    }
}

// A clash of a proof, with the number of its shard.
fn in_shard(shard: u32, found: Option<Clash>) -> Option<CatalogClash>
    ensures { option_map difference_of result ≡ option_map (difference_at (in_proof shard)) (option_map proofs.difference_of found) }
{
    let clash = found?;
    Some(CatalogClash {
        place: StringPlace::Shard {
            shard,
            place: clash.place,
        },
        ours: clash.ours,
        theirs: clash.theirs,
    })
}

// The first clash of the proof of a shard, of which all rules before the settling hold, with the archive of an index.
fn clash_of<H: Hash32>(
    alloc: Global,
    query: &Query,
    shard: u32,
    one: &Shard<'_>,
    index: &Index<H>,
) -> Result<Option<CatalogClash>, OutOfMemory>
    requires { IsShardRight H.hash query.now (framed_of one.now) }
    ensures { IfOk result (λ clash. (proof : Proof) → IsProof (framed_of one.now).bytes proof → option_map difference_of clash
        ≡ option_map (difference_at (in_proof shard)) (proof_collision H.hash index.now query.now proof)) }
{
    let Ok(proof) = ProofView::read(one.bytes) else {
        unreachable!()
    };
    Ok(in_shard(shard, first_clash::<H, _>(alloc, index, query, &proof)?))
}

impl<'a, H: Hash32> CatalogAudit<'a, H> {
    /// An audit of bytes that has taken no index. The bytes are checked here: everything but the root of the catalog.
    pub fn begin(
        alloc: Global,
        bytes: &'a [u8],
        query: &'a Query,
        top: Top,
    ) -> Result<Self, AuditFault>
        ensures begun { IfOk result (IsUnderWay H.hash [] query.now top bytes.now) }
        ensures fault { IfErr result (IsAuditFault bytes.now) }
    {
        let shown = CatalogView::read(bytes)?;
        let root = root_of_view::<H>(&shown, &mut Steps::new(alloc));
        let checked = check::<H>(alloc, bytes, &root, query, top)?;
        let left = shown.cursor();
        let roots = Vec::new(alloc);
        Ok(CatalogAudit {
            query,
            shown,
            root,
            checked,
            left,
            roots,
            clash: None,
            kind: PhantomData,
        })
    }

    // The first collision of the shards up to the next one, which is lent if the proof has it.
    fn first_with(
        &self,
        alloc: Global,
        next: Option<Shard<'a>>,
        index: &Index<H>,
    ) -> Result<Option<CatalogClash>, OutOfMemory>
        requires next { option_map framed_of next ≡ slice_get self.now.left 0 }
        requires room { length self.now.roots < 4096 }
        ensures { IfOk result (λ clash. IfOk self.now.checked (λ rows.
            IsFirstWith H.hash index.now self.now (option_map framed_of next.entry) (option_map difference_of clash))) }
    {
        if self.clash.is_some() || self.checked.is_err() {
            return Ok(self.clash);
        }
        match next {
            Some(one) => clash_of::<H>(alloc, self.query, self.roots.len() as u32, &one, index),
            None => Ok(None),
        }
    }

    /// Takes the index of the next shard, which may be dropped after the call. There are at most
    /// [`MAX_SHARDS`](ats_catalog_bytes::MAX_SHARDS). If memory runs out, the audit is as before.
    pub fn take(&mut self, alloc: Global, index: &Index<H>) -> Result<(), OutOfMemory>
        requires room { length self.old.roots < 4096 }
        ensures taken { OnOk result (HasTaken H.hash (index.now ∷ []) self.old self.new) }
        ensures same { OnErr result (self.new ≡ self.old) }
    {
        // An index has texts within the limits.
        let _facts = index.collection();
        let mut left = self.left;
        let next = left.pass();
        let clash = self.first_with(alloc, next, index)?;
        self.roots.push(index.root())?;
        self.left = left;
        self.clash = clash;
        Ok(())
    }

    /// What the audit finds: the bytes against the catalog of the archives whose indexes it took, at least one.
    pub fn end(self, alloc: Global) -> Result<CatalogVerdict, OutOfMemory>
        requires { 1 ≤ length self.roots }
        ensures { (catalog : List Archive) (query : List (List ℕ × ℕ)) (r : ℕ) (bytes : List ℕ)
            → IsUnderWay H.hash catalog query r bytes self.entry → IfOk result (IsCatalogVerdict H.hash catalog query r bytes) }
    {
        let CatalogAudit {
            query: _,
            shown,
            root,
            checked,
            left: _,
            roots,
            clash,
            kind: _,
        } = self;
        if catalog_root::<H>(roots.as_slice(), &mut Steps::new(alloc)) != root {
            return Ok(CatalogVerdict::Refused(CatalogRefusal::OtherRoot));
        }
        let rows = match checked {
            Ok(rows) => rows,
            Err(refusal) => return Ok(CatalogVerdict::Refused(refusal)),
        };
        if let Some(clash) = first_roots_clash::<H>(alloc, roots.as_slice(), &shown)? {
            return Ok(CatalogVerdict::Collision(clash));
        }
        match clash {
            Some(clash) => Ok(CatalogVerdict::Collision(clash)),
            None => Ok(CatalogVerdict::Right(rows)),
        }
    }
}
