//! `audit-growth`: the audit that nothing was withdrawn.

ghost use Rattle.std.specs.Prelude.{◌≡◌, IfOk, IfErr};
ghost use Rattle.ats_growth_check.specs.declared.checking.Grown.{Grown};
ghost use Rattle.ats_growth_proof.specs.Verdicts.{IsFoundGrown, collision_of};
ghost use Rattle.ats_plan.specs.Runs.{IsDone, IsStopped};
ghost use Rattle.ats_console.specs.Kinds.{line_of_grown};
ghost use Rattle.ats_console.specs.declared.stops.Stop.TheVariants.{Shelf as AtShelf, Memory};
ghost use Rattle.ats_auditors.specs.Collided.{lines_of_growth_collision};
ghost use Rattle.ats_auditors.specs.Audited.{growth_audit};
ghost use Rattle.ats_auditors.specs.Inner.Audited.{AuditStop};
ghost use Rattle.ats_auditors.specs.Commands.{audit_growth_plan};

use ats_base::Shelf;
use ats_console::{GROWTH_FILE_LIMIT, Line, Stop, grown_line, pair_lines, read, refused, rejected};
use ats_growth_proof::GrowthVerdict;
use ats_hash::Hash32;
use ats_index::Index;
use ats_refusal::{Rejection, growth_refusal_words};
use std::alloc::{AllocError, Global};
use std::thread::Threads;

// The part of two strings, and the two in their order, a line each.
fn growth_collision_lines(
    alloc: Global,
    part: u8,
    first: &[u8],
    second: &[u8],
) -> Result<Vec<u8>, AllocError>
    ensures { IfOk result (λ lines. lines.items ≡ lines_of_growth_collision (collision_of part first.now second.now)) }
{
    let place = format!(in alloc; "growth {part}")?;
    pair_lines(alloc, place.as_str(), "first", first, "second", second)
}

// The line of the numbers of bytes that an audit against two indexes finds to show that nothing was withdrawn.
fn audit_to_line<H: Hash32>(
    alloc: Global,
    older: &Index<H>,
    newer: &Index<H>,
    bytes: &[u8],
) -> Result<Vec<u8>, Stop>
    ensures ok { IfOk result (λ text. (grown : Grown) × IsFoundGrown H.hash older.now newer.now bytes.now grown
        × (text.items ≡ line_of_grown grown.old grown.new)) }
    ensures stop { IfErr result (AuditStop H.hash (growth_audit H.hash older.now newer.now) bytes.now) }
{
    let Ok(verdict) = ats_growth_proof::audit_growth::<H>(alloc, older, newer, bytes) else {
        return Err(Stop::Memory);
    };
    match verdict {
        GrowthVerdict::Right(grown) => Ok(grown_line(alloc, grown)?),
        GrowthVerdict::BadShape(fault) => Err(rejected(Rejection::Shape(fault))),
        GrowthVerdict::Refused(refusal) => Err(refused(growth_refusal_words(refusal))),
        GrowthVerdict::Collision {
            part,
            first,
            second,
        } => {
            let lines = growth_collision_lines(alloc, part, first.as_slice(), second.as_slice())?;
            Err(Stop::Collision(Line::made(lines)))
        }
    }
}

/// The line of `audit-growth`. The old index is read before the new one, and both before the file.
pub(crate) fn audit_growth<H: Hash32 + Sync, R: Threads + Sync, S: Shelf>(
    rt: &R,
    alloc: Global,
    old: &str,
    new: &str,
    file: &str,
    shelf: &mut S,
) -> Result<Vec<u8>, Stop>
    ensures ok { IfOk result (λ text. IsDone
        (audit_growth_plan H.hash (record { old = old.now; new = new.now; file = file.now }))
        (S.told shelf.old) (S.told shelf.new) text.items) }
    ensures stop { IfErr result (IsStopped AtShelf Memory
        (audit_growth_plan H.hash (record { old = old.now; new = new.now; file = file.now }))
        (S.told shelf.old) (S.told shelf.new)) }
{
    let older = read::index::<H, R, S>(rt, alloc, old, shelf)?;
    let newer = match read::index::<H, R, S>(rt, alloc, new, shelf) {
        Ok(newer) => newer,
        Err(stop) => {
            drop(older);
            return Err(stop);
        }
    };
    let bytes = match read::shaped(alloc, file, GROWTH_FILE_LIMIT, shelf) {
        Ok(bytes) => bytes,
        Err(stop) => {
            drop(older);
            drop(newer);
            return Err(stop);
        }
    };
    let line = audit_to_line::<H>(alloc, &older, &newer, bytes.as_slice());
    drop(older);
    drop(newer);
    line
}
