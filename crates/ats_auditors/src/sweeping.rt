//! `sweep`: the audits of the proofs of a list against an index, and their lines.

ghost use Rattle.std.specs.Prelude.{◌≡◌, ◌^◌, ◌++◌, ◌||◌, false, IfOk, IfErr, OnOk, length, string_bytes};
ghost use Rattle.std.specs.List.{AllZip};
ghost use Rattle.ats_audit.specs.Sweeps.{IsVerdictOf};
ghost use Rattle.ats_plan.specs.Files.{IsFile};
ghost use Rattle.ats_plan.specs.Runs.{IsDone, IsStopped};
ghost use Rattle.ats_console.specs.Words.{SweepWords};
ghost use Rattle.ats_console.specs.Read.{HasIndex};
ghost use Rattle.ats_auditors.specs.Findings.{FoundRefused, is_refused, is_collision, line_of_finding};
ghost use Rattle.ats_auditors.specs.Inner.Sweeping.{AreJobs, IsReport, ConclusionStop, finding_of, found_by};
ghost use Rattle.ats_auditors.specs.Commands.{sweeps, sweep_plan};
ghost use Rattle.ats_console.specs.declared.stops.Stop.TheVariants.{Shelf as AtShelf, Memory};

use crate::gathering::{Gathered, gather_all};
use crate::listing::{Entry, read_entries};
use ats_audit::{Job, Verdict, Verdicts};
use ats_base::Shelf;
use ats_console::{Line, Stop, read};
use ats_hash::Hash32;
use ats_index::Index;
use ats_refusal::{Rejection, rejection_words};
use std::alloc::{AllocError, Global};
use std::thread::Threads;

// The audits that the lines of a list ask for. A file that is too long is audited as no bytes.
fn jobs<'a>(
    alloc: Global,
    entries: Vec<Entry<'_>>,
    proofs: &'a [Gathered],
) -> Result<Vec<Job<'a>>, AllocError>
    requires { length entries.items ≡ length proofs.now }
    ensures { IfOk result (λ jobs. AreJobs entries.entry.items proofs.now jobs.items) }
{
    let mut jobs = Vec::new(alloc);
    for entry in entries {
        let bytes = proofs[jobs.len()].bytes();
        jobs.push(Job {
            query: entry.query,
            top: entry.top,
            bytes,
        })?;
    }
    Ok(jobs)
}

// The line of a proof that is refused.
fn refused_line(alloc: Global, number: usize, rejection: Rejection) -> Result<String, AllocError>
    ensures { IfOk result (λ text. string_bytes text ≡ line_of_finding number (FoundRefused rejection)) }
{
    let words = rejection_words(rejection).text(alloc)?;
    format!(in alloc; "{number} refused {words}\n")
}

// The line of a proof with this verdict.
fn verdict_line(alloc: Global, number: usize, verdict: &Verdict) -> Result<String, AllocError>
    ensures { IfOk result (λ text. string_bytes text ≡ line_of_finding number (found_by verdict.now)) }
{
    match verdict {
        Verdict::BadShape(fault) => refused_line(alloc, number, Rejection::Shape(*fault)),
        Verdict::Refused(refusal) => refused_line(alloc, number, Rejection::Check(*refusal)),
        Verdict::Right(rows) => {
            let count = rows.len();
            format!(in alloc; "{number} right {count}\n")
        }
        Verdict::Collision { .. } => format!(in alloc; "{number} collision\n"),
    }
}

// The line of a proof. If its file is too long, the verdict is ignored.
fn line(
    alloc: Global,
    number: usize,
    proof: &Gathered,
    verdict: &Verdict,
) -> Result<String, AllocError>
    ensures { IfOk result (λ text. string_bytes text ≡ line_of_finding number (finding_of proof.now verdict.now)) }
{
    match proof {
        Gathered::Long => refused_line(alloc, number, Rejection::Shape(read::TOO_LONG)),
        Gathered::Whole(_) => verdict_line(alloc, number, verdict),
    }
}

fn is_refused(proof: &Gathered, verdict: &Verdict) -> bool
    ensures { result ≡ is_refused (finding_of proof.now verdict.now) }
{
    match proof {
        Gathered::Long => true,
        Gathered::Whole(_) => match verdict {
            Verdict::BadShape(_) | Verdict::Refused(_) => true,
            Verdict::Right(_) | Verdict::Collision { .. } => false,
        },
    }
}

fn is_collision(proof: &Gathered, verdict: &Verdict) -> bool
    ensures { result ≡ is_collision (finding_of proof.now verdict.now) }
{
    match proof {
        Gathered::Long => false,
        Gathered::Whole(_) => match verdict {
            Verdict::Collision { .. } => true,
            Verdict::BadShape(_) | Verdict::Refused(_) | Verdict::Right(_) => false,
        },
    }
}

// The report on some proofs: a line for each, whether one is refused, and whether one collides.
#[derive(Drop)]
struct Report {
    lines: Vec<u8>,
    refused: bool,
    collides: bool,
}

impl Report {
    // Adds the line of one more proof, with its number.
    fn add(
        &mut self,
        alloc: Global,
        number: usize,
        proof: &Gathered,
        verdict: &Verdict,
    ) -> Result<(), AllocError>
        ensures lines { OnOk result (self.new.lines.items
            ≡ self.old.lines.items ++ line_of_finding number (finding_of proof.now verdict.now)) }
        ensures refused { OnOk result (self.new.refused
            ≡ (self.old.refused || is_refused (finding_of proof.now verdict.now))) }
        ensures collides { OnOk result (self.new.collides
            ≡ (self.old.collides || is_collision (finding_of proof.now verdict.now))) }
    {
        let line = line(alloc, number, proof, verdict)?;
        self.lines.extend_from_slice(line.as_bytes())?;
        self.refused = self.refused || is_refused(proof, verdict);
        self.collides = self.collides || is_collision(proof, verdict);
        Ok(())
    }
}

// The report on all proofs, in order.
fn report_of(alloc: Global, proofs: &[Gathered], verdicts: &[Verdict]) -> Result<Report, AllocError>
    requires { length verdicts.now ≡ length proofs.now }
    ensures { IfOk result (IsReport proofs.now verdicts.now) }
{
    let mut report = Report {
        lines: Vec::new(alloc),
        refused: false,
        collides: false,
    };
    for i in 0..proofs.len() {
        report.add(alloc, i + 1, &proofs[i], &verdicts[i])?;
    }
    Ok(report)
}

// If one collides or is refused, not all is right.
fn conclusion(report: Report) -> Result<Vec<u8>, Stop>
    ensures ok { IfOk result (λ text. (text.items ≡ report.lines.items)
        × (report.collides ≡ false) × (report.refused ≡ false)) }
    ensures stop { IfErr result (ConclusionStop report) }
{
    if report.collides {
        return Err(Stop::Collision(Line::made(report.lines)));
    }
    if report.refused {
        return Err(Stop::Rejected(Line::made(report.lines)));
    }
    Ok(report.lines)
}

// The verdicts of all jobs.
fn audit_jobs<H: Hash32 + Sync, R: Threads + Sync>(
    rt: &R,
    alloc: Global,
    index: &Index<H>,
    jobs: &[Job<'_>],
) -> Result<Verdicts, Stop>
    ensures ok { IfOk result (AllZip (IsVerdictOf H.hash index.now) jobs.now) }
    ensures stop { IfErr result (λ stop. stop ≡ Memory) }
{
    match ats_audit::sweep::<H, R>(rt, alloc, index, jobs) {
        Ok(verdicts) => Ok(verdicts),
        Err(_) => Err(Stop::Memory),
    }
}

// The lines of a sweep of a list against an index, after both were read.
fn sweep_to_lines<H: Hash32 + Sync, R: Threads + Sync, S: Shelf>(
    rt: &R,
    alloc: Global,
    index: &Index<H>,
    list: &[u8],
    shelf: &mut S,
) -> Result<Vec<u8>, Stop>
    ensures ok { (words : SweepWords) → HasIndex H.hash (S.told shelf.old).files words.index index.now
        → IsFile (S.told shelf.old).files words.list (2 ^ 20) list.now
        → IfOk result (λ text. IsDone (sweeps H.hash words index.now list.now)
        (S.told shelf.old) (S.told shelf.new) text.items) }
    ensures stop { (words : SweepWords)
        → IfErr result (IsStopped AtShelf Memory (sweeps H.hash words index.now list.now)
        (S.told shelf.old) (S.told shelf.new)) }
{
    let entries = read_entries(alloc, list)?;
    let proofs = gather_all(alloc, entries.as_slice(), shelf)?;
    let jobs = jobs(alloc, entries, proofs.as_slice())?;
    let verdicts = audit_jobs::<H, R>(rt, alloc, index, jobs.as_slice())?;
    conclusion(report_of(alloc, proofs.as_slice(), verdicts.as_slice())?)
}

/// The lines of `sweep`. The index is read before the list, all lines are checked before a proof is gathered, and all
/// proofs are gathered before one is audited.
pub(crate) fn sweep<H: Hash32 + Sync, R: Threads + Sync, S: Shelf>(
    rt: &R,
    alloc: Global,
    index: &str,
    list: &str,
    shelf: &mut S,
) -> Result<Vec<u8>, Stop>
    ensures ok { IfOk result (λ text. IsDone (sweep_plan H.hash (record { index = index.now; list = list.now }))
        (S.told shelf.old) (S.told shelf.new) text.items) }
    ensures stop { IfErr result (IsStopped AtShelf Memory
        (sweep_plan H.hash (record { index = index.now; list = list.now }))
        (S.told shelf.old) (S.told shelf.new)) }
{
    let loaded = read::index::<H, R, S>(rt, alloc, index, shelf)?;
    let bytes = match read::file(alloc, list, read::LIST_LIMIT, shelf) {
        Ok(bytes) => bytes,
        Err(stop) => {
            drop(loaded);
            return Err(stop);
        }
    };
    let text = sweep_to_lines::<H, R, S>(rt, alloc, &loaded, bytes.as_slice(), shelf);
    drop(loaded);
    text
}
