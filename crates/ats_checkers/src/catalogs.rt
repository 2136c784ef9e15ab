//! `catalog-root` and `catalog`: the root of a catalog, and the check of the proof of its answer.

ghost use Rattle.std.specs.Prelude.{◌≡◌, List, IfOk, IfErr};
ghost use Rattle.ats_catalog_check.specs.Bytes.{AreVerifiedRows};
ghost use Rattle.ats_catalog_check.specs.declared.row.CatalogRow.{CatalogRow};
ghost use Rattle.ats_plan.specs.Plan.{ComesToShelf};
ghost use Rattle.ats_plan.specs.Runs.{IsDone, IsStopped};
ghost use Rattle.ats_console.specs.Kinds.{CheckStop, catalog_kind};
ghost use Rattle.ats_console.specs.Print.{lines_of_catalog};
ghost use Rattle.ats_console.specs.declared.stops.Stop.TheVariants.{Shelf as AtShelf, Memory};
ghost use Rattle.ats_checkers.specs.Commands.{catalog_root_plan, catalog_plan};

use ats_base::Shelf;
use ats_catalog_bytes::catalog_root as root_over;
use ats_catalog_check::{CatalogFault, verify_catalog};
use ats_console::{CATALOG_FILE_LIMIT, Stop, catalog_lines, read, refused, rejected, root_line};
use ats_hash::{Hash32, Steps};
use ats_impact::Top;
use ats_refusal::{Rejection, catalog_refusal_words};
use ats_terms::Query;
use std::alloc::Global;

/// The line of the root of the catalog whose shards have the roots of a list.
pub(crate) fn catalog_root<H: Hash32, S: Shelf>(
    alloc: Global,
    roots: &str,
    shelf: &mut S,
) -> Result<Vec<u8>, Stop>
    ensures ok { IfOk result (λ text. IsDone (catalog_root_plan H.hash (record { roots = roots.now }))
        (S.told shelf.old) (S.told shelf.new) text.items) }
    ensures stop { IfErr result (IsStopped AtShelf Memory
        (catalog_root_plan H.hash (record { roots = roots.now })) (S.told shelf.old) (S.told shelf.new)) }
{
    let listed = read::roots(alloc, roots, shelf)?;
    let root = root_over::<H>(listed.as_slice(), &mut Steps::new(alloc));
    Ok(root_line(alloc, &root)?.into_bytes())
}

// The lines of the rows of bytes that are accepted.
fn catalog_to_lines<H: Hash32>(
    alloc: Global,
    bytes: &[u8],
    root: &[u8; 32],
    query: &Query,
    top: Top,
) -> Result<Vec<u8>, Stop>
    ensures ok { IfOk result (λ text. (rows : List CatalogRow)
        × AreVerifiedRows H.hash root.now query.now top bytes.now rows × (text.items ≡ lines_of_catalog rows)) }
    ensures stop { IfErr result (CheckStop (catalog_kind H.hash root.now query.now top) bytes.now) }
{
    match verify_catalog::<H>(alloc, bytes, root, query, top) {
        Ok(rows) => match catalog_lines(alloc, &rows) {
            Ok(text) => Ok(text),
            Err(_) => Err(Stop::Memory),
        },
        Err(CatalogFault::Shape(fault)) => Err(rejected(Rejection::Shape(fault))),
        Err(CatalogFault::Refused(refusal)) => Err(refused(catalog_refusal_words(refusal))),
        Err(CatalogFault::OutOfMemory) => Err(Stop::Memory),
    }
}

/// The lines of `catalog`. The words are checked before anything is read.
pub(crate) fn catalog<H: Hash32, S: Shelf>(
    alloc: Global,
    root: &[u8; 32],
    r: u32,
    query: &str,
    file: &str,
    shelf: &mut S,
) -> Result<Vec<u8>, Stop>
    ensures ok { IfOk result (λ text. IsDone
        (catalog_plan H.hash (record { root = root.now; r = r; query = query.now; file = file.now }))
        (S.told shelf.old) (S.told shelf.new) text.items) }
    ensures stop { IfErr result (IsStopped AtShelf Memory
        (catalog_plan H.hash (record { root = root.now; r = r; query = query.now; file = file.now }))
        (S.told shelf.old) (S.told shelf.new)) }
    ensures unread { (ComesToShelf
        (catalog_plan H.hash (record { root = root.now; r = r; query = query.now; file = file.now })) → ⊥)
        → shelf.new ≡ shelf.old }
{
    let rows = Top::new(r)?;
    let asked = Query::read(alloc, query)?;
    let bytes = read::shaped(alloc, file, CATALOG_FILE_LIMIT, shelf)?;
    catalog_to_lines::<H>(alloc, bytes.as_slice(), root, &asked, rows)
}
