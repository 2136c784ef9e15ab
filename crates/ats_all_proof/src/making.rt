//! The making of a proof that shows all documents with every term of a query.

ghost use Rattle.std.specs.Prelude.{◌≡◌, ◌==◌, ℕ, length, map, nat_lt, IfOk, IfErr, if◌then◌else◌};
ghost use Rattle.std.specs.List.{list_any};
ghost use Rattle.ats_proof.specs.Value.{Proof};
ghost use Rattle.ats_honest.specs.Honest.{length_of};
ghost use Rattle.ats_all_proof.specs.Made.{IsBothFault, IsBothMade, IsBothProof, IsBothWithin, first_least_whole};

use ats_all_check::OutOfMemory;
use ats_base::Bytes;
use ats_bound::Cut;
use ats_grammar::MAX_PROOF;
use ats_hash::HashKind;
use ats_index::Index;
use ats_prover::{Algorithm, ProveFault, entry_counts, prove_cut_within};
use ats_terms::Query;
use std::alloc::Global;

/// Why no proof was returned.
#[derive(Clone, Copy, Debug, PartialEq, Eq)]
pub enum BothFault {
    /// The proof has this many bytes, more than 2^26.
    TooLong { length: u64 },
    OutOfMemory,
}

impl From<OutOfMemory> for BothFault {
    ghost use Rattle.std.specs.Prelude.{◌≡◌};
    ghost use Rattle.ats_all_proof.specs.declared.making.BothFault.TheVariants.{OutOfMemory};

    ghost from_gives = { λ _ fault. fault ≡ OutOfMemory };

    fn from(_: OutOfMemory) -> Self {
        BothFault::OutOfMemory
    }
}

// Whether one of the counts is less than n.
fn has_less(counts: &[u32], n: u32) -> bool
    ensures { result ≡ list_any (λ m. nat_lt m n) counts.now }
{
    counts.iter().any(|count| *count < n)
}

// The cut that shows the first of the shortest lists whole, and one entry of each other.
fn first_least_whole(alloc: Global, counts: &[u32]) -> Result<Cut, OutOfMemory>
    ensures { IfOk result (λ cut. cut ≡ first_least_whole counts.now) }
{
    let mut cut = Cut::new(alloc);
    let mut has_whole = false;
    // A query has few terms, so a look at all later lists for each list costs little.
    for i in 0..counts.len() {
        let n = counts[i];
        if has_whole || has_less(&counts[i + 1..], n) {
            cut.push(1)?;
        } else {
            cut.push(n)?;
            has_whole = true;
        }
    }
    Ok(cut)
}

// The cut that shows one entry of each list.
fn one_of_each(alloc: Global, counts: &[u32]) -> Result<Cut, OutOfMemory>
    ensures { IfOk result (λ cut. cut ≡ map (λ n. 1) counts.now) }
{
    let mut cut = Cut::new(alloc);
    for _ in counts {
        cut.push(1)?;
    }
    Ok(cut)
}

// The cut to be shown, if the lists of a query of so many terms have these counts of entries.
fn cut_of(alloc: Global, counts: &[u32], terms: usize) -> Result<Cut, OutOfMemory>
    ensures { IfOk result (λ cut. cut
        ≡ (if length counts.now == terms then first_least_whole counts.now else map (λ n. 1) counts.now)) }
{
    if counts.len() == terms {
        first_least_whole(alloc, counts)
    } else {
        one_of_each(alloc, counts)
    }
}

/// The proof that shows all documents with every term of a query, of at most 2^26 bytes. It is by TRA and has no answer
/// rows.
pub fn prove_both<H: HashKind>(
    alloc: Global,
    index: &Index<H>,
    query: &Query,
) -> Result<Bytes, BothFault>
    ensures ok { IfOk result (IsBothProof H.hash index.now query.now) }
    ensures err { IfErr result (IsBothFault H.hash index.now query.now) }
    ensures size { (proof : Proof) → IsBothMade H.hash index.now query.now proof
        → IsBothWithin (length_of proof) result }
{
    let Ok(counts) = entry_counts(alloc, index, query) else {
        return Err(BothFault::OutOfMemory);
    };
    let cut = cut_of(alloc, counts.as_slice(), query.len())?;
    match prove_cut_within(
        alloc,
        index,
        query,
        cut.as_slice(),
        Algorithm::Tra,
        MAX_PROOF,
    ) {
        Ok(bytes) => Ok(bytes),
        Err(ProveFault::ProofTooLong { length }) => Err(BothFault::TooLong { length }),
        Err(ProveFault::OutOfMemory) => Err(BothFault::OutOfMemory),
    }
}
