//! `rank`: the plain ranking of a collection's documents.

ghost use Rattle.std.specs.Prelude.{◌≡◌, IfOk, IfErr};
ghost use Rattle.ats_plan.specs.Plan.{ComesToShelf};
ghost use Rattle.ats_plan.specs.Runs.{IsDone, IsStopped};
ghost use Rattle.ats_makers.specs.Commands.{rank_plan};
ghost use Rattle.ats_console.specs.declared.stops.Stop.TheVariants.{Shelf as AtShelf, Memory};

use ats_base::Shelf;
use ats_console::{Stop, lines, read};
use ats_impact::{Top, rank_plain};
use ats_terms::Query;
use std::alloc::Global;

/// The lines of `rank`. The words are checked before anything is read.
pub(crate) fn rank<S: Shelf>(
    alloc: Global,
    collection: &str,
    r: u32,
    query: &str,
    shelf: &mut S,
) -> Result<Vec<u8>, Stop>
    ensures ok { IfOk result (λ text. IsDone
        (rank_plan (record { collection = collection.now; r = r; query = query.now }))
        (S.told shelf.old) (S.told shelf.new) text.items) }
    ensures stop { IfErr result (IsStopped AtShelf Memory
        (rank_plan (record { collection = collection.now; r = r; query = query.now }))
        (S.told shelf.old) (S.told shelf.new)) }
    ensures unread { (ComesToShelf (rank_plan (record { collection = collection.now; r = r; query = query.now })) → ⊥)
        → shelf.new ≡ shelf.old }
{
    let top = Top::new(r)?;
    let query = Query::read(alloc, query)?;
    let collection = read::collection(alloc, collection, shelf)?;
    let rows = rank_plain(alloc, &collection, &query, top)?;
    Ok(lines(alloc, &rows)?)
}
