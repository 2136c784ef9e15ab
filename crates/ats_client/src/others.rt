//! The most that a document can score that no row names, by the marks.

ghost use Rattle.std.specs.Prelude.{◌≡◌, ◌+◌, ◌≤◌, ◌^◌, ℕ, List, length};
ghost use Rattle.ats_client.specs.Inner.Bounds.{AreBelow, most_outside};
ghost use Rattle.ats_client.specs.Marked.{AreNoted};
ghost use Rattle.ats_client.specs.Rows.{IsLeftByCheck};
ghost use Rattle.ats_client.specs.Bounded.{rest_of};

use crate::settled::upper;
use ats_bound::Work;
use ats_hash::Steps;
use ats_proof::ProofView;

// The greatest of the threshold and of what documents that no row names can score.
fn greatest(marks: u32, work: &Work, threshold: u64, steps: &mut Steps) -> u64
    requires all { marks ≡ length work.now.marks }
    requires below { AreBelow threshold work.now.marks }
    requires count { steps.old ≤ 2 ^ 63 }
    ensures most { result ≡ most_outside threshold work.now.marks }
    ensures steps { steps.new ≡ steps.old + marks }
{
    let mut most = threshold;
    for i in 0..marks {
        let mark = work.get(i, steps);
        if !mark.row && upper(mark, threshold) > most {
            most = upper(mark, threshold);
        }
    }
    most
}

/// The rest of a proof: the most that a document can score that no row names. Each mark is read once.
///
/// The marks and the threshold must be those that [`check_shown`](crate::check_shown) leaves for this proof.
pub fn rest(proof: &ProofView<'_>, work: &Work, threshold: u64, steps: &mut Steps) -> u64
    requires left { (query : List (List ℕ × ℕ)) × IsLeftByCheck query proof.now work.now.marks threshold }
    requires noted { AreNoted proof.now.answer work.now.marks }
    requires count { steps.old ≤ 2 ^ 63 }
    ensures rest { (query : List (List ℕ × ℕ)) → IsLeftByCheck query proof.now work.now.marks threshold
        → result ≡ rest_of query proof.now }
    ensures steps { steps.new ≡ steps.old + length proof.now.met }
{
    greatest(proof.met(), work, threshold, steps)
}
