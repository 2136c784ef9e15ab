//! A catalog's proof over its bytes.

ghost use Rattle.std.specs.Prelude.{◌≡◌, ◌<◌, ◌≤◌, ◌^◌, ◌∷◌, ◌++◌, [], ℕ, List, length, slice_index_or, Ok, Err, IfOk, IfErr, OnOk};
ghost use Rattle.std.specs.List.{flat_map};
ghost use Rattle.ats_grammar.specs.Front.{IsBad};
ghost use Rattle.ats_grammar.specs.Position.{StandsBefore, Passes, HasFault};
ghost use Rattle.ats_grammar.specs.Table.{Table, End, spelled};
ghost use Rattle.ats_grammar.specs.declared.fault.ShapeFault.{ShapeFault};
ghost use Rattle.ats_catalog_bytes.specs.Grammar.{shard_proof, shard_proofs, catalog_schema};
ghost use Rattle.ats_catalog_bytes.specs.Seen.{shards_left};
ghost use Rattle.ats_catalog_bytes.specs.Value.{proof_fields};

use crate::cursor::ShardCursor;
use ats_grammar::{MAX_PROOF, Reader, ShapeFault, ShapeKind};
use ats_proof::begin_file;
use std::marker::Model;

/// The most bytes that a catalog's proof may have.
const MAX_BYTES: u64 = 1 << 28;

/// `ATSS` as a number.
const MAGIC: u32 = 0x4154_5353;

/// The most shards that a catalog may have. It has at least one.
pub const MAX_SHARDS: u32 = 4096;

/// The bytes before the first root.
const FRONT_BYTES: usize = 9;

/// What is shown of each shard of a catalog, over the bytes of the catalog's proof: the root, and the bytes of the shard's
/// proof.
#[derive(Clone, Drop)]
pub struct CatalogView<'a> {
    all: ShardCursor<'a>,
}

impl<'a> Model for CatalogView<'a> {
    ghost use Rattle.std.specs.Prelude.{List};
    ghost use Rattle.ats_catalog_bytes.specs.Seen.{shards_left};
    ghost use Rattle.ats_catalog_bytes.specs.Value.{Framed, AreFrames};

    ghost Value = { List Framed };

    ghost view = { λ v. shards_left v.all };

    ghost invariant = { λ v. AreFrames (shards_left v.all) };
}

// Passes the proof of one shard.
fn pass_proof(reader: &mut Reader<'_>) -> Result<(), ShapeFault>
    ensures read { OnOk result ((bytes : List ℕ) × ((rest : Table)
        → Passes reader.old reader.new (shard_proof rest) (proof_fields bytes) rest)) }
    ensures refused { IfErr result (λ fault. (rest : Table) → HasFault reader.old (shard_proof rest) fault) }
{
    let size = reader.number(4, 0, MAX_PROOF as u32, ShapeKind::Count)?;
    reader.bytes(size)?;
    Ok(())
}

// Passes the proofs of so many shards.
fn pass_proofs(reader: &mut Reader<'_>, count: u32) -> Result<(), ShapeFault>
    ensures read { OnOk result ((proofs : List (List ℕ)) × (length proofs ≡ count)
        × Passes reader.old reader.new (shard_proofs count) (flat_map proof_fields proofs) End) }
    ensures refused { IfErr result (HasFault reader.old (shard_proofs count)) }
{
    for _ in 0..count {
        pass_proof(reader)?;
    }
    Ok(())
}

// Reads up to the roots of the shards, and lends these.
fn read_front(bytes: &[u8]) -> Result<(Reader<'_>, &[[u8; 32]]), ShapeFault>
    ensures read { IfOk result (λ front. StandsBefore catalog_schema bytes.now
        (spelled 4 0x41545353 ∷ spelled 1 1 ∷ spelled 4 (length front.1.now) ∷ front.1.now) front.0
        (shard_proofs (length front.1.now))) }
    ensures range { IfOk result (λ front. (1 ≤ length front.1.now) × (length front.1.now ≤ 4096)) }
    ensures refused { IfErr result (IsBad catalog_schema bytes.now) }
{
    let mut reader = begin_file(bytes, MAX_BYTES, MAGIC)?;
    reader.number(1, 1, 1, ShapeKind::Version)?;
    let count = reader.number(4, 1, MAX_SHARDS, ShapeKind::Count)?;
    let (roots, _) = reader.digests(count)?.as_chunks::<32>();
    Ok((reader, roots))
}

impl<'a> CatalogView<'a> {
    ghost use Rattle.ats_catalog_bytes.specs.Value.{Framed, frame_at, shown_roots, IsCatalogProof, AreFrames};

    // The fields one after another, and the first that is wrong.
    fn fields(bytes: &'a [u8]) -> Result<CatalogView<'a>, ShapeFault>
        ensures spelled { IfOk result (IsCatalogProof bytes.now) }
        ensures refused { IfErr result (IsBad catalog_schema bytes.now) }
    {
        let (mut reader, roots) = read_front(bytes)?;
        pass_proofs(&mut reader, roots.len() as u32)?;
        reader.end()?;
        let (_, proofs) = bytes.split_at(FRONT_BYTES + 32 * roots.len());
        Ok(CatalogView {
            all: ShardCursor { roots, proofs },
        })
    }

    /// Reads the bytes of a catalog's proof from left to right, and returns the first fault if they spell none. The proofs
    /// of the shards may be of any bytes.
    pub fn read(bytes: &'a [u8]) -> Result<CatalogView<'a>, ShapeFault>
        ensures spelled { IfOk result (IsCatalogProof bytes.now) }
        ensures accepted { (shards : List Framed) → IsCatalogProof bytes.now shards → result ≡ Ok shards }
        ensures refused { IfErr result (IsBad catalog_schema bytes.now) }
        ensures exact { (fault : ShapeFault) → IsBad catalog_schema bytes.now fault → result ≡ Err fault }
    {
        CatalogView::fields(bytes)
    }

    /// How many shards there are.
    pub fn shards(&self) -> u32
        ensures { result ≡ length self.now }
    {
        self.all.len()
    }

    /// The root that is shown of the shard with this number, from 0.
    pub fn root(&self, i: u32) -> &'a [u8; 32]
        requires { i < length self.now }
        ensures { result.now ≡ (frame_at self.now i).root }
    {
        &self.all.roots[i as usize]
    }

    /// The roots that are shown.
    pub fn roots(&self) -> &'a [[u8; 32]]
        ensures { result.now ≡ shown_roots self.now }
    {
        self.all.roots
    }

    /// A cursor before the first shard.
    pub fn cursor(&self) -> ShardCursor<'a>
        ensures { shards_left result ≡ self.now }
    {
        self.all
    }

    /// What holds of all that was read.
    pub fn facts(&self)
        ensures { AreFrames self.now }
    {
        let _ = &self.all;
    }
}
