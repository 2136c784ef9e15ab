//! The check of bytes as the proof of a catalog's answer, up to its rows.

ghost use Rattle.std.specs.Prelude.{IfOk, IfErr};
ghost use Rattle.ats_catalog_check.specs.Bytes.{AreVerifiedRows, IsCatalogFault};

use crate::checking::check_catalog;
use crate::fault::CatalogFault;
use crate::row::CatalogRows;
use ats_bound::Work;
use ats_catalog_bytes::CatalogView;
use ats_hash::{Hash32, Steps};
use ats_impact::Top;
use ats_terms::Query;
use std::alloc::Global;

/// The most documents that a proof can meet: [`check_catalog`] never needs room for more marks.
pub const MAX_MET: u32 = 65_536;

/// Checks whether bytes prove their answer right: the best `top` documents for the query in all archives of the catalog that
/// the root commits to, each scored in its own archive. Returns the rows of the answer, or the first thing that is wrong
/// with the bytes.
pub fn verify_catalog<H: Hash32>(
    alloc: Global,
    bytes: &[u8],
    root: &[u8; 32],
    query: &Query,
    top: Top,
) -> Result<CatalogRows, CatalogFault>
    ensures rows { IfOk result (λ rows. AreVerifiedRows H.hash root.now query.now top bytes.now rows.rows) }
    ensures fault { IfErr result (IsCatalogFault H.hash root.now query.now top bytes.now) }
{
    let view = CatalogView::read(bytes)?;
    let mut work = Work::with_room(alloc, MAX_MET)?;
    let mut rows = CatalogRows::with_room(alloc, top.get())?;
    match check_catalog::<H>(
        root,
        query,
        top,
        &view,
        &mut work,
        &mut rows,
        &mut Steps::new(alloc),
    ) {
        Ok(()) => Ok(rows),
        Err(refusal) => Err(CatalogFault::Refused(refusal)),
    }
}
