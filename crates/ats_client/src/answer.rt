//! The rows of an answer, after the check accepted it.

ghost use Rattle.std.specs.Prelude.{◌≡◌, ◌+◌, ◌≤◌, ◌<◌, ◌^◌, ℕ, List, length};
ghost use Rattle.ats_client.specs.Rows.{IsLeftByCheck, row_of, row_bracket};

use crate::settled::upper;
use ats_bound::Work;
use ats_hash::Steps;
use ats_impact::Row;
use ats_proof::ProofView;
use byteorder::{BigEndian, ByteOrder};

/// Row `i` of the answer, counted from 0: its document with the least and the most that it scores.
///
/// The marks and the threshold must be those that an accepted check of this proof leaves.
pub fn row(proof: &ProofView<'_>, work: &Work, threshold: u64, i: u32, steps: &mut Steps) -> Row
    requires left { (query : List (List ℕ × ℕ)) × IsLeftByCheck query proof.now work.now.marks threshold }
    requires within { i < length proof.now.answer }
    requires count { steps.old ≤ 2 ^ 63 }
    ensures row { (query : List (List ℕ × ℕ)) → IsLeftByCheck query proof.now work.now.marks threshold
        → result ≡ row_of (row_bracket query proof.now i) }
    ensures cost { steps.new ≡ steps.old + 3 }
{
    let index = proof.answer(i, steps);
    let mark = work.get(index, steps);
    let id = proof.met_id(index, steps);
    Row {
        doc: BigEndian::read_u32(id),
        lower: mark.lo,
        upper: upper(mark, threshold),
    }
}
