//! The present terms of a proof, one after another.

ghost use Rattle.std.specs.Prelude.{◌≡◌, ◌<◌, ◌≤◌, ◌+◌, ◌^◌, ◌∷◌, length, drop, slice_get, option_map, IfSome, IfNone};
ghost use Rattle.ats_proof.specs.Value.{present_in};
ghost use Rattle.ats_client.specs.Presented.{presented_from};
ghost use Rattle.ats_client.specs.Groups.{IsSlotRight, slot_at};
ghost use Rattle.ats_client.specs.Inner.SeenLists.{prefix_of, prefixes_left, presented_of};
ghost use Rattle.ats_client.specs.Inner.Seen.{entries_left};

use crate::present_term::Present;
use crate::walk::Walk;
use ats_hash::Steps;
use ats_proof::{DictView, ListView, ListsView, ProofView};
use ats_terms::Query;

// The first prefix left.
#[tactic(auto, unfolding(crate::specs::Inner::SeenLists::prefixes_left, crate::specs::Inner::SeenLists::prefix_of))]
fn next_list<'a>(left: &mut ListsView<'a>, steps: &mut Steps) -> Option<ListView<'a>>
    requires space { steps.old ≤ 2 ^ 63 }
    ensures first { option_map prefix_of result ≡ slice_get (prefixes_left left.old) 0 }
    ensures passed { prefixes_left left.new ≡ drop 1 (prefixes_left left.old) }
    ensures cost { steps.new ≤ steps.old + 1 }
{
    left.next(steps)
}

/// A term of the query with the next prefix, if its slot says that it is present.
pub(crate) fn present<'a>(
    query: &Query,
    proof: &ProofView<'a>,
    i: u32,
    walk: &mut Walk<DictView<'a>>,
    left: &mut ListsView<'a>,
    steps: &mut Steps,
) -> Option<Present<'a>>
    requires inside { i < length query.now }
    requires each { length proof.now.slots ≡ length query.now }
    requires right { IsSlotRight query.now proof.now i }
    requires dict { entries_left walk.old.all ≡ proof.now.dict }
    requires enough { present_in (drop i proof.now.slots) ≡ length (prefixes_left left.old) }
    requires space { steps.old ≤ 2 ^ 62 + 2 ^ 45 }
    ensures some { IfSome result
        (λ one. presented_from proof.now.dict i (drop i query.now) (drop i proof.now.slots) (prefixes_left left.old)
        ≡ presented_of one ∷ presented_from proof.now.dict (i + 1)
        (drop (i + 1) query.now) (drop (i + 1) proof.now.slots) (prefixes_left left.new)) }
    ensures number { IfSome result (λ one. one.number ≡ i) }
    ensures none { IfNone result
        (presented_from proof.now.dict i (drop i query.now) (drop i proof.now.slots) (prefixes_left left.old)
        ≡ presented_from proof.now.dict (i + 1)
        (drop (i + 1) query.now) (drop (i + 1) proof.now.slots) (prefixes_left left.new)) }
    ensures enough { present_in (drop (i + 1) proof.now.slots) ≡ length (prefixes_left left.new) }
    ensures dict { walk.new.all ≡ walk.old.all }
    ensures taken { IfSome result (λ one. prefixes_left left.old ≡ prefix_of one.list ∷ prefixes_left left.new) }
    ensures same { IfNone result (prefixes_left left.new ≡ prefixes_left left.old) }
    ensures before { walk.old.place ≤ (slot_at proof.now.slots i).index
        → walk.new.place ≤ (slot_at proof.now.slots i).index }
    ensures cost { steps.new ≤ steps.old + 2 ^ 17 }
    ensures most { walk.old.place ≤ (slot_at proof.now.slots i).index
        → steps.new + length (entries_left walk.new.left) ≤ steps.old + length (entries_left walk.old.left) + 2 }
{
    let slot = proof.slot(i, steps);
    if !slot.present {
        return None;
    }
    let Some(leaf) = walk.leaf(slot.index, steps) else {
        unreachable!()
    };
    let Some(list) = next_list(left, steps) else {
        unreachable!()
    };
    Some(Present {
        number: i,
        weight: query.weight(i as usize),
        entry: leaf.entry,
        list,
    })
}
