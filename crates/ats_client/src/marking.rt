//! Notes the entries of a prefix in the marks of their documents.

ghost use Rattle.std.specs.Prelude.{◌≡◌, ◌≢◌, ◌<◌, ◌≤◌, ◌+◌, ◌*◌, ◌^◌, ◌↔◌, ◌++◌, List, [], length, map, slice_set, IsTrue, OnOk, IfErr};
ghost use Rattle.ats_bound.specs.Work.{mark_at};
ghost use Rattle.ats_bound.specs.Cut.{rest_impact};
ghost use Rattle.ats_client.specs.Indexes.{AreNames};
ghost use Rattle.ats_client.specs.Groups.{IsEntryFault, indexes_of};
ghost use Rattle.ats_client.specs.Inner.Noting.{Note, note, with_note, AreNotes};
ghost use Rattle.ats_client.specs.Inner.SeenLists.{prefix_of, presented_of};

use crate::present_term::Present;
use ats_bound::{Mark, Work};
use ats_hash::Steps;
use ats_proof::ListView;
use ats_refusal::Refusal;

/// The impact that no entry outside the prefix exceeds, if the list has `total` entries.
#[tactic(auto, unfolding(crate::specs::Inner::SeenLists::prefix_of))]
pub(crate) fn rest_impact(list: &ListView<'_>, total: u32, steps: &mut Steps) -> u16
    requires space { steps.old ≤ 2 ^ 63 }
    ensures value { result
        ≡ rest_impact (record { coefficient = 0; total = total; shown = (prefix_of list.now).entries }) }
    ensures cost { steps.new ≤ steps.old + 1 }
{
    let len = list.len();
    if len == 0 || len == total {
        return 0;
    }
    list.entry(len - 1, steps).impact
}

// Notes an entry of a list, counted from 1, in the mark of its document. Returns false, and notes nothing, if the list
// has named the document before.
fn noted(work: &mut Work, index: u32, list: u32, gain: u64, rest: u64, steps: &mut Steps) -> bool
    requires inside { index < length work.old.marks }
    requires lo { (mark_at work.old.marks index).lo + gain < 2 ^ 64 }
    requires held { (mark_at work.old.marks index).held + rest < 2 ^ 64 }
    requires space { steps.old ≤ 2 ^ 63 }
    ensures first { IsTrue result ↔ ((mark_at work.old.marks index).list ≢ list) }
    ensures marks { IsTrue result
        → work.new ≡ record {
          marks = slice_set work.old.marks index (with_note (mark_at work.old.marks index) list gain rest);
          room = work.old.room;
        } }
    ensures room { work.new.room ≡ work.old.room }
    ensures cost { steps.new ≤ steps.old + 2 }
{
    let mark = work.get(index, steps);
    if mark.list == list {
        return false;
    }
    let mark = Mark {
        lo: mark.lo + gain,
        held: mark.held + rest,
        list,
        row: mark.row,
    };
    work.put(index, mark, steps);
    true
}

/// A coefficient times an impact.
pub(crate) fn weighed(coefficient: u32, impact: u16) -> u64
    requires { coefficient ≤ 2 ^ 17 }
    ensures value { result ≡ coefficient * impact }
    ensures small { result ≤ 2 ^ 33 }
{
    u64::from(coefficient) * u64::from(impact)
}

/// Notes the entries of a prefix, until one fails.
#[tactic(auto, unfolding(crate::specs::Inner::SeenLists::prefix_of))]
pub(crate) fn entries(
    one: &Present<'_>,
    met: u32,
    coefficient: u32,
    rest: u64,
    work: &mut Work,
    steps: &mut Steps,
) -> Result<(), Refusal>
    requires number { one.now.number < 32 }
    requires coefficient { coefficient ≤ 2 ^ 17 }
    requires rest { rest ≤ 2 ^ 33 }
    requires notes { (notes : List Note) × AreNotes met notes (one.now.number + 1) [] work.old.marks }
    requires space { steps.old ≤ 2 ^ 62 + 2 ^ 50 }
    ensures fault { IfErr result (IsEntryFault met (presented_of one.now)) }
    ensures names { OnOk result (AreNames met (indexes_of (prefix_of one.now.list).entries)) }
    ensures notes { OnOk result ((notes : List Note) → AreNotes met notes (one.now.number + 1) [] work.old.marks
        → AreNotes met
        (notes ++ map (note coefficient rest) (prefix_of one.now.list).entries) (one.now.number + 1)
        (indexes_of (prefix_of one.now.list).entries) work.new.marks) }
    ensures room { work.new.room ≡ work.old.room }
    ensures cost { steps.new ≤ steps.old + 2 ^ 34 }
    ensures most { steps.new ≤ steps.old + 3 * length (prefix_of one.now.list).entries }
{
    for i in 0..one.list.len() {
        let entry = one.list.entry(i, steps);
        if entry.doc >= met {
            return Err(Refusal::IndexOut {
                term: one.number,
                entry: i,
            });
        }
        let gain = weighed(coefficient, entry.impact);
        if !noted(work, entry.doc, one.number + 1, gain, rest, steps) {
            return Err(Refusal::Repeated {
                term: one.number,
                entry: i,
            });
        }
    }
    Ok(())
}
