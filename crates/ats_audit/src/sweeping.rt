//! The audits of many proofs against one index.

ghost use Rattle.std.specs.Prelude.{◌≡◌, ◌<◌, IfOk, Some, length, slice_get};
ghost use Rattle.std.specs.List.{AllZip};
ghost use Rattle.ats_audit.specs.Sweeps.{IsVerdictOf};

use crate::auditing::{Verdict, audit};
use crate::memory::OutOfMemory;
use ats_hash::Hash32;
use ats_impact::Top;
use ats_index::Index;
use ats_terms::Query;
use rayon::prelude::*;
use std::alloc::Global;
use std::marker::Model;
use std::thread::Threads;

/// The bytes of a proof to audit, with its query and number of rows.
#[derive(Drop)]
pub struct Job<'a> {
    pub query: Query,
    pub top: Top,
    pub bytes: &'a [u8],
}

/// A list of verdicts.
#[derive(Drop)]
pub struct Verdicts {
    items: Vec<Verdict>,
}

impl Model for Verdicts {
    ghost use Rattle.std.specs.Prelude.{List};
    ghost use Rattle.ats_audit.specs.declared.auditing.Verdict.{Verdict};

    ghost Value = { List Verdict };

    ghost view = { λ v. v.items.items };
}

impl Verdicts {
    pub fn len(&self) -> usize
        ensures { result ≡ length self.now }
    {
        self.items.len()
    }

    /// The verdict at place `i`, counted from 0.
    pub fn get(&self, i: usize) -> &Verdict
        requires { i < length self.now }
        ensures { slice_get self.now i ≡ Some result.now }
    {
        &self.items[i]
    }

    pub fn as_slice(&self) -> &[Verdict]
        ensures { result.now ≡ self.now }
    {
        self.items.as_slice()
    }
}

/// Audits each job against one index, as [`audit`] does, and returns the verdicts in the order of the jobs.
///
/// The jobs are shared among threads, one by one, and each job has memory of its own.
pub fn sweep<H: Hash32 + Sync, R: Threads + Sync>(
    rt: &R,
    alloc: Global,
    index: &Index<H>,
    jobs: &[Job<'_>],
) -> Result<Verdicts, OutOfMemory>
    ensures { IfOk result (AllZip (IsVerdictOf H.hash index.now) jobs.now) }
{
    let verdicts = jobs
        .par_iter()
        .with_min_len(1)
        .map(
            |job: &Job<'_>| -> Result<Verdict, OutOfMemory>
                ensures { IfOk result (IsVerdictOf H.hash index.entry.now job.now) }
            { audit(alloc, index, &job.query, job.top, job.bytes) },
        )
        .collect::<Result<Vec<Verdict>, OutOfMemory>>(rt, alloc)?;
    Ok(Verdicts { items: verdicts? })
}
