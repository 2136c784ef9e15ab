//! Whether a proof shows a whole list.

ghost use Rattle.std.specs.Prelude.{◌≡◌, ◌≤◌, ◌+◌, ◌*◌, ◌^◌, length};
ghost use Rattle.ats_client.specs.Groups.{AreSlotsRight};
ghost use Rattle.ats_client.specs.WholeLists.{shows_whole};

use crate::next_term::present;
use crate::walk::Walk;
use ats_hash::Steps;
use ats_proof::ProofView;
use ats_terms::Query;

/// Whether some present term has as many shown entries as the dictionary gives its list. If the proof is accepted, all
/// documents that have this term are then met.
pub fn shows_whole_list(query: &Query, proof: &ProofView<'_>, steps: &mut Steps) -> bool
    requires each { length proof.now.slots ≡ length query.now }
    requires right { AreSlotsRight query.now proof.now }
    requires space { steps.old ≤ 2 ^ 62 + 2 ^ 42 }
    ensures whole { result ≡ shows_whole query.now proof.now }
    ensures most { steps.new ≤ steps.old + length proof.now.dict + 2 * length proof.now.slots }
{
    proof.facts();
    let mut walk = Walk::over(proof.dict());
    let mut left = proof.lists();
    for i in 0..query.len() {
        if let Some(one) = present(query, proof, i as u32, &mut walk, &mut left, steps) {
            let f = one.entry.f;
            if one.list.len() == f {
                return true;
            }
        }
    }
    false
}
