//! Checks one prefix against the list that the dictionary names.

ghost use Rattle.std.specs.Prelude.{◌≡◌, ◌<◌, ◌≤◌, ◌+◌, ◌*◌, ◌^◌, ◌++◌, List, [], Some, length, OnOk, IfOk, IfErr};
ghost use Rattle.std.specs.List.{All, range_with_len};
ghost use Rattle.ats_tree.specs.Shown.{positions_of};
ghost use Rattle.ats_bound.specs.Cut.{rest};
ghost use Rattle.ats_lists.specs.Formats.{prefix_root};
ghost use Rattle.ats_proof.specs.Ranges.{IsPrefixInRange};
ghost use Rattle.ats_proof.specs.Value.{items_of_prefix};
ghost use Rattle.ats_client.specs.Groups.{IsListRight, IsListFault, IsListRootFault, list_digest};
ghost use Rattle.ats_client.specs.Inner.Noting.{Note, AreNotes, index_lane, lane_notes};
ghost use Rattle.ats_client.specs.Inner.SeenLists.{prefix_of, presented_of};
ghost use Rattle.ats_client.specs.Inner.KeptTerms.{kept_term};

use crate::marking::{entries, rest_impact, weighed};
use crate::present_term::Present;
use crate::rebuilding::rebuilt;
use ats_bound::Work;
use ats_hash::{Hash32, Steps};
use ats_lists::{Format, chain_rebuild};
use ats_proof::ProofView;
use ats_refusal::Refusal;
use ats_tree::Revealed;

// The digest that the first `k` entries of a list of `f` entries rebuild to, by how the list is hashed, `None` if they are
// no part of such a list.
fn rebuilt_list<'a, H: Hash32, R: Revealed<'a>>(
    format: Format,
    f: u32,
    k: u32,
    revealed: &mut R,
    steps: &mut Steps,
) -> Option<[u8; 32]>
    requires some { 1 ≤ k }
    requires few { k ≤ 65536 }
    requires front { positions_of (R.shown revealed.old) ≡ range_with_len 0 k }
    requires size { length (R.shown revealed.old) ≡ k }
    requires space { steps.old ≤ 2 ^ 63 }
    ensures digest { result ≡ prefix_root H.hash format f (R.shown revealed.old) (R.digests revealed.old) }
    ensures cost { steps.new ≤ steps.old + 3 * f + 1 }
    ensures most { steps.new ≤ steps.old + 3 * k + 2 * length (R.digests revealed.old) + 1 }
{
    match format {
        Format::One => rebuilt::<H, R>(f, revealed, steps),
        Format::Two => chain_rebuild::<H, R>(f, k, revealed, steps),
    }
}

// Checks that the prefix is the front of the list that its term's leaf names.
#[tactic(auto, using(crate::proofs::Counts::shown_list_size), unfolding(crate::specs::Inner::SeenLists::prefix_of))]
fn rooted<'a, H: Hash32>(
    one: &Present<'a>,
    proof: &ProofView<'a>,
    steps: &mut Steps,
) -> Result<(), Refusal>
    requires named { All (λ e. e.doc < length proof.now.met) (prefix_of one.now.list).entries }
    requires range { IsPrefixInRange (prefix_of one.now.list) }
    requires space { steps.old ≤ 2 ^ 63 }
    ensures holds { OnOk result
        (list_digest H.hash proof.now.format proof.now.met (presented_of one.now)
        ≡ Some (presented_of one.now).entry.root) }
    ensures fault { IfErr result (IsListRootFault H.hash proof.now.format proof.now.met (presented_of one.now)) }
    ensures cost { steps.new ≤ steps.old + 2 ^ 34 }
    ensures most { steps.new
        ≤ steps.old + 3 * length (prefix_of one.now.list).entries + 2 * length (prefix_of one.now.list).digests + 1 }
{
    let mut section = one.list.revealed(proof);
    let Some(digest) = rebuilt_list::<H, _>(
        proof.format(),
        one.entry.f,
        one.list.len(),
        &mut section,
        steps,
    ) else {
        return Err(Refusal::ListMisfit { term: one.number });
    };
    if digest != one.entry.list_root {
        return Err(Refusal::ListRoot { term: one.number });
    }
    Ok(())
}

/// Checks the prefix of a present term with this coefficient, and notes its entries. Returns the most that the entries
/// outside the prefix can add to a score.
pub(crate) fn list<'a, H: Hash32>(
    one: &Present<'a>,
    coefficient: u32,
    proof: &ProofView<'a>,
    work: &mut Work,
    steps: &mut Steps,
) -> Result<u64, Refusal>
    requires number { one.now.number < 32 }
    requires range { IsPrefixInRange (prefix_of one.now.list) }
    requires coefficient { coefficient ≡ (kept_term proof.now.header.documents (presented_of one.now)).coefficient }
    requires small { coefficient ≤ 2 ^ 17 }
    requires notes { (notes : List Note)
        × AreNotes (length proof.now.met) notes (one.now.number + 1) [] work.old.marks }
    requires space { steps.old ≤ 2 ^ 62 + 2 ^ 45 }
    ensures fault { IfErr result (IsListFault H.hash proof.now.format proof.now.met (presented_of one.now)) }
    ensures right { OnOk result (IsListRight H.hash proof.now.format proof.now.met (presented_of one.now)) }
    ensures notes { OnOk result
        ((notes : List Note) → AreNotes (length proof.now.met) notes (one.now.number + 1) [] work.old.marks
        → AreNotes (length proof.now.met)
        (notes ++ lane_notes (index_lane proof.now.header.documents (presented_of one.now)))
        (one.now.number + 2) [] work.new.marks) }
    ensures rest { IfOk result (λ most. most ≡ rest (index_lane proof.now.header.documents (presented_of one.now))) }
    ensures small { IfOk result (λ most. most ≤ 2 ^ 33) }
    ensures room { work.new.room ≡ work.old.room }
    ensures cost { steps.new ≤ steps.old + 2 ^ 36 }
    ensures most { steps.new ≤ steps.old + 6 * items_of_prefix (prefix_of one.now.list) + 2 }
{
    let impact = rest_impact(&one.list, one.entry.f, steps);
    let rest = weighed(coefficient, impact);
    entries(one, proof.met(), coefficient, rest, work, steps)?;
    rooted::<H>(one, proof, steps)?;
    Ok(rest)
}
