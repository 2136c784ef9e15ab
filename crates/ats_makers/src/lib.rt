//! The commands of who holds the archive: they rank a collection, index it, and make what others check.
//!
//! `rank` ranks the documents of a collection's file, `build` stores a collection's index, `migrate` that of the same
//! texts in the second format, and `root` prints the root of an index. `prove` stores the proof of a query's best
//! documents, `give` what gives the text of a document, `prove-both` the proof of all documents with every term of a
//! query, `grow` what shows that nothing was withdrawn between two indexes, and `prove-catalog` the file of a catalog's
//! answer.
//!
//! The room stands on `ats_plan` and `ats_console` for what a command is and reads, on `ats_index`, `ats_prover`,
//! `ats_text_proof`, `ats_all_proof`, `ats_growth_proof` and `ats_catalog_proof` for what it makes, and on no check.
//! [`answer`] comes to the text that the plan of a command allows (`specs/Commands`), or stops as its plan stops. How a
//! command makes its answer may change freely; the order in which its inputs are tried may not.
//!
//! ```
//! let command = MakerCommand::Rank { collection: "X", r: 1, query: "red hen" };
//! let text = answer::<Sha, _, _>(rt, alloc, command, shelf)?; // b"1 1 13014 13014\n", or why it stopped
//! ```
#![tactic(auto)]

ghost use Rattle.std.specs.Prelude.{◌≡◌, IfOk, IfErr};
ghost use Rattle.ats_plan.specs.Plan.{ComesToShelf};
ghost use Rattle.ats_plan.specs.Runs.{IsDone, IsStopped};
ghost use Rattle.ats_console.specs.Words.{maker_meaning};
ghost use Rattle.ats_console.specs.declared.stops.Stop.TheVariants.{Shelf as AtShelf, Memory};
ghost use Rattle.ats_makers.specs.Commands.{maker_plan};

mod catalogs;
mod documents;
mod growths;
mod indexing;
mod proving;
mod ranking;
mod storing;
mod texts;

use ats_base::Shelf;
use ats_console::{MakerCommand, Stop};
use ats_hash::Hash32;
use catalogs::prove_catalog;
use documents::prove_both;
use growths::grow;
use indexing::{build, migrate, root};
use proving::prove;
use ranking::rank;
use std::alloc::Global;
use std::thread::Threads;
use texts::give;

/// The text of a command that ranks, indexes or makes, or why it stopped. Nothing is printed.
pub fn answer<H: Hash32 + Sync, R: Threads + Sync, S: Shelf>(
    rt: &R,
    alloc: Global,
    command: MakerCommand,
    shelf: &mut S,
) -> Result<Vec<u8>, Stop>
    ensures ok { IfOk result (λ text. IsDone (maker_plan H.hash (maker_meaning command.entry))
        (S.told shelf.old) (S.told shelf.new) text.items) }
    ensures stop { IfErr result (IsStopped AtShelf Memory (maker_plan H.hash (maker_meaning command.entry))
        (S.told shelf.old) (S.told shelf.new)) }
    ensures unread { (ComesToShelf (maker_plan H.hash (maker_meaning command.entry)) → ⊥)
        → shelf.new ≡ shelf.old }
{
    match command {
        MakerCommand::Rank {
            collection,
            r,
            query,
        } => rank(alloc, collection, r, query, shelf),
        MakerCommand::Build { collection, index } => build::<H, R, S>(
            rt, alloc, collection, index, shelf,
        ),
        MakerCommand::Migrate { index, migrated } => migrate::<H, R, S>(
            rt, alloc, index, migrated, shelf,
        ),
        MakerCommand::Root { index } => root::<H, R, S>(rt, alloc, index, shelf),
        MakerCommand::Prove {
            index,
            algorithm,
            r,
            query,
            proof,
        } => prove::<H, R, S>(rt, alloc, index, algorithm, r, query, proof, shelf),
        MakerCommand::Give { index, doc, file } => give::<H, R, S>(
            rt, alloc, index, doc, file, shelf,
        ),
        MakerCommand::ProveBoth {
            index,
            query,
            proof,
        } => prove_both::<H, R, S>(rt, alloc, index, query, proof, shelf),
        MakerCommand::Grow { old, new, file } => grow::<H, R, S>(rt, alloc, old, new, file, shelf),
        MakerCommand::ProveCatalog {
            list,
            algorithm,
            r,
            query,
            file,
        } => prove_catalog::<H, R, S>(rt, alloc, list, algorithm, r, query, file, shelf),
    }
}
