//! The commands of a reader, who holds only roots: they check a file, and print what it shows.
//!
//! `verify` checks the proof of a query's best documents, `fetch` the text of a document, `both` the proof of all documents
//! with every term of a query, and `growth` that nothing was withdrawn between two roots. `catalog` checks the proof of the
//! best documents of several archives, whose common root `catalog-root` prints.
//!
//! The room stands on `ats_plan` and `ats_console` for what a command is and reads, on `ats_client`, `ats_text_check`,
//! `ats_all_check`, `ats_growth_check`, `ats_catalog_bytes` and `ats_catalog_check` for the checks, and on `ats_audit`, `ats_text_proof`,
//! `ats_all_proof`, `ats_growth_proof` and `ats_catalog_audit` only for what audits return. [`answer`] comes to the text that the plan
//! of a command allows (`specs/Commands`), or stops as its plan stops. An accepted file comes with what follows for every
//! archive with the root, and with what each audit of it returns. `verify_to_lines` is for who checks bytes that came over a
//! link. How a command makes its answer may change freely; the order in which its inputs are tried may not.
//!
//! ```
//! // the lines of the rows of the file "answer.proof", or why it is refused
//! let command = CheckerCommand::Verify { root, r: 3, query: "blood count", proof: "answer.proof" };
//! let text = answer::<Sha, _>(alloc, command, shelf)?;
//! ```
#![tactic(auto)]

ghost use Rattle.std.specs.Prelude.{◌≡◌, IfOk, IfErr};
ghost use Rattle.ats_plan.specs.Plan.{ComesToShelf};
ghost use Rattle.ats_plan.specs.Runs.{IsDone, IsStopped};
ghost use Rattle.ats_console.specs.Words.{checker_meaning};
ghost use Rattle.ats_console.specs.declared.stops.Stop.TheVariants.{Shelf as AtShelf, Memory};
ghost use Rattle.ats_checkers.specs.Commands.{checker_plan};

mod catalogs;
mod documents;
mod growths;
mod texts;
mod verifying;

use ats_base::Shelf;
use ats_console::{CheckerCommand, Stop};
use ats_hash::Hash32;
use catalogs::{catalog, catalog_root};
use documents::both;
use growths::growth;
use std::alloc::Global;
use texts::fetch;
use verifying::verify;
pub use verifying::verify_to_lines;

/// The text of a command that checks, or why it stopped. Nothing is printed.
pub fn answer<H: Hash32, S: Shelf>(
    alloc: Global,
    command: CheckerCommand,
    shelf: &mut S,
) -> Result<Vec<u8>, Stop>
    ensures ok { IfOk result (λ text. IsDone (checker_plan H.hash (checker_meaning command.entry))
        (S.told shelf.old) (S.told shelf.new) text.items) }
    ensures stop { IfErr result (IsStopped AtShelf Memory (checker_plan H.hash (checker_meaning command.entry))
        (S.told shelf.old) (S.told shelf.new)) }
    ensures unread { (ComesToShelf (checker_plan H.hash (checker_meaning command.entry)) → ⊥)
        → shelf.new ≡ shelf.old }
{
    match command {
        CheckerCommand::Verify {
            root,
            r,
            query,
            proof,
        } => verify::<H, S>(alloc, &root, r, query, proof, shelf),
        CheckerCommand::Fetch { root, doc, file } => fetch::<H, S>(alloc, &root, doc, file, shelf),
        CheckerCommand::Both { root, query, proof } => both::<H, S>(
            alloc, &root, query, proof, shelf,
        ),
        CheckerCommand::Growth { old, new, file } => growth::<H, S>(alloc, &old, &new, file, shelf),
        CheckerCommand::CatalogRoot { roots } => catalog_root::<H, S>(alloc, roots, shelf),
        CheckerCommand::Catalog {
            root,
            r,
            query,
            file,
        } => catalog::<H, S>(alloc, &root, r, query, file, shelf),
    }
}
