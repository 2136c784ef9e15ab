//! `audit-catalog`: the audit of the proof of a catalog's answer, with one index at a time.

ghost use Rattle.std.specs.Prelude.{◌≡◌, ◌≤◌, ◌<◌, ◌+◌, ◌^◌, [], ◌∷◌, ℕ, List, length, IfOk, IfErr, OnOk};
ghost use Rattle.ats_commit.specs.Archive.{Archive};
ghost use Rattle.ats_catalog_check.specs.declared.row.CatalogRow.{CatalogRow};
ghost use Rattle.ats_catalog_audit.specs.UnderWay.{IsAuditFault, IsUnderWay, HasTaken};
ghost use Rattle.ats_catalog_audit.specs.Verdicts.{IsFoundRight, difference_of};
ghost use Rattle.ats_terms.specs.Query.{IsQueryOf};
ghost use Rattle.ats_plan.specs.Files.{IsFile};
ghost use Rattle.ats_plan.specs.Plan.{ComesToShelf};
ghost use Rattle.ats_plan.specs.Runs.{IsDone, IsStopped};
ghost use Rattle.ats_console.specs.Print.{lines_of_catalog};
ghost use Rattle.ats_console.specs.Names.{HasNames, reads_archives};
ghost use Rattle.ats_console.specs.Steps.{AsksRanking, reads_index, no_more, comes_to};
ghost use Rattle.ats_console.specs.declared.stops.Stop.TheVariants.{Shelf as AtShelf, Memory};
ghost use Rattle.ats_auditors.specs.Collided.{lines_of_catalog_collision};
ghost use Rattle.ats_auditors.specs.Audited.{catalog_audit};
ghost use Rattle.ats_auditors.specs.Inner.Audited.{AuditStop};
ghost use Rattle.ats_auditors.specs.Inner.Catalogs.{IsBeginStop};
ghost use Rattle.ats_auditors.specs.Commands.{audits_catalog, audit_catalog_plan};

use ats_base::Shelf;
use ats_catalog_audit::{AuditFault, CatalogAudit, CatalogClash, CatalogVerdict, StringPlace};
use ats_console::{
    CATALOG_FILE_LIMIT, Line, Name, Stop, catalog_lines, read, read_names, refused, rejected,
    shard_collision_lines, strings_lines,
};
use ats_hash::Hash32;
use ats_impact::Top;
use ats_refusal::{Rejection, catalog_refusal_words};
use ats_terms::Query;
use std::alloc::{AllocError, Global};
use std::thread::Threads;

// The place, the catalog's own string and that of the file, a line each.
fn clash_lines(alloc: Global, clash: &CatalogClash) -> Result<Vec<u8>, AllocError>
    ensures { IfOk result (λ lines. lines.items ≡ lines_of_catalog_collision (difference_of clash.now)) }
{
    let ours = clash.ours.bytes();
    let theirs = clash.theirs.bytes();
    match clash.place {
        StringPlace::Header => strings_lines(alloc, "header", 0, 0, ours, theirs),
        StringPlace::Roots { depth, turns } => {
            strings_lines(alloc, "roots", depth, turns, ours, theirs)
        }
        StringPlace::Shard { shard, place } => {
            shard_collision_lines(alloc, shard, place, ours, theirs)
        }
    }
}

// The stop of an audit that does not begin.
fn begin_stop(fault: AuditFault) -> Stop
    ensures { (bytes : List ℕ) → IsAuditFault bytes fault → IsBeginStop bytes result }
{
    match fault {
        AuditFault::BadShape(shape) => rejected(Rejection::Shape(shape)),
        AuditFault::OutOfMemory => Stop::Memory,
    }
}

// An audit of the bytes of the file that has taken no index.
fn begin<'a, H: Hash32>(
    alloc: Global,
    bytes: &'a [u8],
    query: &'a Query,
    top: Top,
) -> Result<CatalogAudit<'a, H>, Stop>
    ensures ok { IfOk result (IsUnderWay H.hash [] query.now top bytes.now) }
    ensures stop { IfErr result (IsBeginStop bytes.now) }
{
    match CatalogAudit::<H>::begin(alloc, bytes, query, top) {
        Ok(audit) => Ok(audit),
        Err(fault) => Err(begin_stop(fault)),
    }
}

// Takes the index that the named file is, which is dropped then.
fn take_named<H: Hash32 + Sync, R: Threads + Sync, S: Shelf>(
    rt: &R,
    alloc: Global,
    name: &str,
    audit: &mut CatalogAudit<'_, H>,
    shelf: &mut S,
) -> Result<(), Stop>
    requires room { length audit.old.roots < 4096 }
    ensures ok { OnOk result ((archive : Archive) × HasTaken H.hash (archive ∷ []) audit.old audit.new
        × IsDone (reads_index H.hash name.now (comes_to archive)) (S.told shelf.old) (S.told shelf.new) []) }
    ensures stop { IfErr result (IsStopped AtShelf Memory (reads_index H.hash name.now (λ archive. no_more))
        (S.told shelf.old) (S.told shelf.new)) }
{
    let index = read::index::<H, R, S>(rt, alloc, name, shelf)?;
    let taken = audit.take(alloc, &index);
    drop(index);
    match taken {
        Ok(()) => Ok(()),
        Err(_) => Err(Stop::Memory),
    }
}

// Takes the indexes that the named files are, in order, and keeps none of them.
fn take_all<H: Hash32 + Sync, R: Threads + Sync, S: Shelf>(
    rt: &R,
    alloc: Global,
    names: &[Name<'_>],
    audit: &mut CatalogAudit<'_, H>,
    shelf: &mut S,
) -> Result<(), Stop>
    requires room { length audit.old.roots + length names.now ≤ 4096 }
    ensures ok { OnOk result ((archives : List Archive) × HasTaken H.hash archives audit.old audit.new
        × IsDone (reads_archives H.hash [] names.now (comes_to archives)) (S.told shelf.old) (S.told shelf.new) []) }
    ensures stop { IfErr result (IsStopped AtShelf Memory (reads_archives H.hash [] names.now (λ archives. no_more))
        (S.told shelf.old) (S.told shelf.new)) }
{
    for name in names {
        take_named::<H, R, S>(rt, alloc, name.as_str(), audit, shelf)?;
    }
    Ok(())
}

// The lines of the rows that an audit finds right.
fn audit_to_lines<H: Hash32>(alloc: Global, audit: CatalogAudit<'_, H>) -> Result<Vec<u8>, Stop>
    requires some { 1 ≤ length audit.roots }
    ensures ok { (catalog : List Archive) (query : List (List ℕ × ℕ)) (r : ℕ) (bytes : List ℕ)
        → IsUnderWay H.hash catalog query r bytes audit.entry
        → IfOk result (λ text. (rows : List CatalogRow)
        × IsFoundRight H.hash catalog query r bytes rows × (text.items ≡ lines_of_catalog rows)) }
    ensures stop { (catalog : List Archive) (query : List (List ℕ × ℕ)) (r : ℕ) (bytes : List ℕ)
        → IsUnderWay H.hash catalog query r bytes audit.entry
        → IfErr result (AuditStop H.hash (catalog_audit H.hash catalog query r) bytes) }
{
    let Ok(verdict) = audit.end(alloc) else {
        return Err(Stop::Memory);
    };
    match verdict {
        CatalogVerdict::Right(rows) => Ok(catalog_lines(alloc, &rows)?),
        CatalogVerdict::Refused(refusal) => Err(refused(catalog_refusal_words(refusal))),
        CatalogVerdict::Collision(clash) => {
            let lines = clash_lines(alloc, &clash)?;
            Err(Stop::Collision(Line::made(lines)))
        }
    }
}

// The lines of an audit of bytes against the archives of the named indexes.
fn audit_names<H: Hash32 + Sync, R: Threads + Sync, S: Shelf>(
    rt: &R,
    alloc: Global,
    names: &[Name<'_>],
    query: &Query,
    top: Top,
    bytes: &[u8],
    shelf: &mut S,
) -> Result<Vec<u8>, Stop>
    requires some { 1 ≤ length names.now }
    requires few { length names.now ≤ 4096 }
    ensures ok { (list text file : List ℕ) → AsksRanking top text → IsQueryOf text query.now
        → HasNames (S.told shelf.old).files list names.now → IsFile (S.told shelf.old).files file (2 ^ 28) bytes.now
        → IfOk result (λ printed. IsDone
        (audits_catalog H.hash (record { list = list; r = top; query = text; file = file }) names.now query.now bytes.now)
        (S.told shelf.old) (S.told shelf.new) printed.items) }
    ensures stop { (list text file : List ℕ) → IfErr result (IsStopped AtShelf Memory
        (audits_catalog H.hash (record { list = list; r = top; query = text; file = file }) names.now query.now bytes.now)
        (S.told shelf.old) (S.told shelf.new)) }
{
    let mut audit = begin::<H>(alloc, bytes, query, top)?;
    match take_all::<H, R, S>(rt, alloc, names, &mut audit, shelf) {
        Ok(()) => audit_to_lines::<H>(alloc, audit),
        Err(stop) => {
            drop(audit);
            Err(stop)
        }
    }
}

/// The lines of `audit-catalog`. The words are checked before anything is read, the list before the file, and the shape of
/// the file before the indexes, of which one at a time is in memory.
pub(crate) fn audit_catalog<H: Hash32 + Sync, R: Threads + Sync, S: Shelf>(
    rt: &R,
    alloc: Global,
    list: &str,
    r: u32,
    query: &str,
    file: &str,
    shelf: &mut S,
) -> Result<Vec<u8>, Stop>
    ensures ok { IfOk result (λ text. IsDone
        (audit_catalog_plan H.hash (record { list = list.now; r = r; query = query.now; file = file.now }))
        (S.told shelf.old) (S.told shelf.new) text.items) }
    ensures stop { IfErr result (IsStopped AtShelf Memory
        (audit_catalog_plan H.hash (record { list = list.now; r = r; query = query.now; file = file.now }))
        (S.told shelf.old) (S.told shelf.new)) }
    ensures unread { (ComesToShelf
        (audit_catalog_plan H.hash (record { list = list.now; r = r; query = query.now; file = file.now })) → ⊥)
        → shelf.new ≡ shelf.old }
{
    let top = Top::new(r)?;
    let asked = Query::read(alloc, query)?;
    let listed = read::file(alloc, list, read::LIST_LIMIT, shelf)?;
    let names = read_names(alloc, listed.as_slice())?;
    let bytes = read::shaped(alloc, file, CATALOG_FILE_LIMIT, shelf)?;
    audit_names::<H, R, S>(
        rt,
        alloc,
        names.as_slice(),
        &asked,
        top,
        bytes.as_slice(),
        shelf,
    )
}
