//! The commands of who holds the archive and wants to know whether a file that was accepted is right.
//!
//! `audit` checks whether an accepted proof and an index's archive contain two different strings with the same digest.
//! `audit-fetch`, `audit-both` and `audit-growth` do so for the other kinds of files, `audit-catalog` for the proof of a
//! catalog's answer and the indexes of a list, one at a time, and `sweep` for a list of proofs. `trial` proves, checks and
//! audits the queries of a number over its texts.
//!
//! The room stands on `ats_plan` and `ats_console` for what a command is and reads, on `ats_index` for archives, on
//! `ats_audit`, `ats_text_proof`, `ats_all_proof`, `ats_growth_proof` and `ats_catalog_audit` for the audits, and on `ats_prover`,
//! `ats_client` and `ats_accepts` for the trial. [`answer`] comes to the text that the plan of a command allows
//! (`specs/Commands`), or stops as its plan stops. What an audit of each kind of file is stands once (`specs/Audited.antt`),
//! and what stops it is its first collision (`specs/Collided.antt`). How a command makes its answer may change freely; the
//! order in which its inputs are tried may not.
//!
//! ```
//! // the lines of the rows, or why they are not right, of the file "answer.proof" against the index "archive.index"
//! let command = AuditorCommand::Audit { index: "archive.index", r: 3, query: "blood count", proof: "answer.proof" };
//! let text = answer::<Sha, _, _>(rt, alloc, command, shelf)?;
//! ```
#![tactic(auto)]

ghost use Rattle.std.specs.Prelude.{◌≡◌, IfOk, IfErr};
ghost use Rattle.ats_plan.specs.Plan.{ComesToShelf};
ghost use Rattle.ats_plan.specs.Runs.{IsDone, IsStopped};
ghost use Rattle.ats_console.specs.Words.{auditor_meaning};
ghost use Rattle.ats_console.specs.declared.stops.Stop.TheVariants.{Shelf as AtShelf, Memory};
ghost use Rattle.ats_auditors.specs.Commands.{auditor_plan};

mod auditing;
mod catalogs;
mod documents;
mod gathering;
mod growths;
mod listing;
mod sweeping;
mod texts;
mod trials;

use ats_base::Shelf;
use ats_console::{AuditorCommand, Stop};
use ats_hash::Hash32;
use auditing::audit;
use catalogs::audit_catalog;
use documents::audit_both;
pub use gathering::Gathered;
use growths::audit_growth;
use std::alloc::Global;
use std::thread::Threads;
use sweeping::sweep;
use texts::audit_fetch;
use trials::trial;

/// The text of a command that audits, or why it stopped. Nothing is printed.
pub fn answer<H: Hash32 + Sync, R: Threads + Sync, S: Shelf>(
    rt: &R,
    alloc: Global,
    command: AuditorCommand,
    shelf: &mut S,
) -> Result<Vec<u8>, Stop>
    ensures ok { IfOk result (λ text. IsDone (auditor_plan H.hash (auditor_meaning command.entry))
        (S.told shelf.old) (S.told shelf.new) text.items) }
    ensures stop { IfErr result (IsStopped AtShelf Memory (auditor_plan H.hash (auditor_meaning command.entry))
        (S.told shelf.old) (S.told shelf.new)) }
    ensures unread { (ComesToShelf (auditor_plan H.hash (auditor_meaning command.entry)) → ⊥)
        → shelf.new ≡ shelf.old }
{
    match command {
        AuditorCommand::Audit {
            index,
            r,
            query,
            proof,
        } => audit::<H, R, S>(rt, alloc, index, r, query, proof, shelf),
        AuditorCommand::AuditFetch { index, doc, file } => audit_fetch::<H, R, S>(
            rt, alloc, index, doc, file, shelf,
        ),
        AuditorCommand::AuditBoth {
            index,
            query,
            proof,
        } => audit_both::<H, R, S>(rt, alloc, index, query, proof, shelf),
        AuditorCommand::AuditGrowth { old, new, file } => audit_growth::<H, R, S>(
            rt, alloc, old, new, file, shelf,
        ),
        AuditorCommand::AuditCatalog {
            list,
            r,
            query,
            file,
        } => audit_catalog::<H, R, S>(rt, alloc, list, r, query, file, shelf),
        AuditorCommand::Sweep { index, list } => sweep::<H, R, S>(rt, alloc, index, list, shelf),
        AuditorCommand::Trial { number } => trial::<H, R>(rt, alloc, number),
    }
}
