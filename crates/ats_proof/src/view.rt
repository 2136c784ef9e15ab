//! A whole proof.

ghost use Rattle.std.specs.Prelude.{◌≡◌, ◌<◌, ◌≤◌, ◌+◌, ◌*◌, ◌^◌, ℕ, List, length, map, take, drop, slice_get, Some};
ghost use Rattle.ats_grammar.specs.Table.{number};
ghost use Rattle.ats_proof.specs.Parts.{parts_in};
ghost use Rattle.ats_proof.specs.Reading.{slot_size, slot_in, met_place};

use crate::bytes::{digest, nth, number_1, number_2, number_4};
use crate::dict::DictView;
use crate::digests::counted_digests_2;
use crate::leaves::LeafRun;
use crate::lists::ListsView;
use crate::places::{Begun, Ended};
use crate::record::{Algorithm, DICT_BACK_BYTES, FRONT_BYTES, Slot};
use ats_dict::Header;
use ats_hash::Steps;
use ats_lists::Format;
use std::marker::Model;

/// A proof over its bytes, which it lends part by part.
#[derive(Clone, Drop)]
pub struct ProofView<'a> {
    pub(crate) bytes: &'a [u8],
    pub(crate) tra: bool,
    pub(crate) begun: Begun,
    pub(crate) docs: usize,
    pub(crate) ended: Ended,
}

impl<'a> Model for ProofView<'a> {
    ghost use Rattle.ats_proof.specs.Reading.{proof_in};
    ghost use Rattle.ats_proof.specs.Inner.Told.{IsPlaced};
    ghost use Rattle.ats_proof.specs.Value.{Proof};

    ghost Value = { Proof };

    ghost view = { λ v. proof_in v.bytes.now };

    ghost invariant = { λ v. IsPlaced v.bytes.now v.tra v.begun v.ended v.docs };
}

impl<'a> ProofView<'a> {
    ghost use Rattle.std.specs.Prelude.{None, true, false};
    ghost use Rattle.ats_proof.specs.Value.{IsProof, IsSpelled, algorithm_of, present_in};
    ghost use Rattle.ats_proof.specs.Ranges.{IsInRange};
    ghost use Rattle.ats_proof.specs.Runs.{shown_entry};
    ghost use Rattle.ats_proof.specs.Seen.{entries_of, digests_of, leaves_of};
    ghost use Rattle.ats_proof.specs.SeenLists.{lists_of};

    /// Facts that hold for every proof that was read.
    pub fn facts(&self)
        ensures spelled { IsSpelled self.now }
        ensures range { IsInRange self.now }
    {
        let _ = &self.bytes;
    }

    /// How the lists of the archive are hashed, by the version of the proof.
    pub fn format(&self) -> Format
        ensures { result ≡ self.now.format }
    {
        if number_1(self.bytes.split_at(4).1) == 2 {
            return Format::Two;
        }
        Format::One
    }

    /// Which algorithm made the proof.
    pub fn algorithm(&self) -> Algorithm
        ensures { result ≡ algorithm_of self.now }
    {
        if self.tra {
            return Algorithm::Tra;
        }
        Algorithm::Tnra
    }

    /// The header of the collection.
    pub fn header(&self) -> Header
        ensures { result ≡ self.now.header }
    {
        Header {
            documents: number_4(self.bytes.split_at(7).1),
            dict_leaves: number_4(self.bytes.split_at(11).1),
            dict_root: digest(self.bytes.split_at(15).1),
            docs_root: digest(self.bytes.split_at(47).1),
            texts_root: digest(self.bytes.split_at(79).1),
        }
    }

    /// How many terms the query has.
    pub fn terms(&self) -> u32
        ensures { result ≡ length self.now.slots }
    {
        self.begun.terms
    }

    /// The slot of a query term.
    pub fn slot(&self, i: u32, steps: &mut Steps) -> Slot
        requires within { i < length self.now.slots }
        requires space { steps.old + 1 < 2 ^ 64 }
        ensures slot { slice_get self.now.slots i ≡ Some result }
        ensures cost { steps.new ≡ steps.old + 1 }
    {
        steps.tick();
        slot_at(self.bytes.split_at(self.begun.slots).1, self.begun.terms, i)
    }

    /// How many documents are met.
    pub fn met(&self) -> u32
        ensures { result ≡ length self.now.met }
    {
        self.begun.met
    }

    /// The number of a met document, in its four bytes.
    pub fn met_id(&self, i: u32, steps: &mut Steps) -> &'a [u8]
        requires within { i < length self.now.met }
        requires space { steps.old + 1 < 2 ^ 64 }
        ensures id { slice_get self.now.met i ≡ Some (number result.now) }
        ensures size { length result.now ≡ 4 }
        ensures lent { (bytes : List ℕ) → IsProof bytes self.now
            → result.now ≡ take 4 (drop (met_place bytes + 4 + 4 * i) bytes) }
        ensures cost { steps.new ≡ steps.old + 1 }
    {
        steps.tick();
        let ids = self.bytes.split_at(self.begun.met_at + 4).1;
        nth(ids, self.begun.met, 4, i).split_at(4).0
    }

    /// How many rows the answer has.
    pub fn answers(&self) -> u32
        ensures { result ≡ length self.now.answer }
    {
        u32::from(number_2(self.bytes.split_at(self.ended.answer).1))
    }

    /// The met index of a row.
    pub fn answer(&self, i: u32, steps: &mut Steps) -> u32
        requires within { i < length self.now.answer }
        requires space { steps.old + 1 < 2 ^ 64 }
        ensures row { slice_get self.now.answer i ≡ Some result }
        ensures cost { steps.new ≡ steps.old + 1 }
    {
        steps.tick();
        let rows = self.bytes.split_at(self.ended.answer + 2).1;
        number_4(nth(rows, self.answers(), 4, i))
    }

    /// The dictionary section.
    pub fn dict(&self) -> DictView<'a>
        ensures entries { entries_of result ≡ self.now.dict }
        ensures shown { leaves_of result.leaves ≡ map shown_entry self.now.dict }
        ensures digests { digests_of result.digests ≡ self.now.dict_digests }
    {
        let left = u32::from(number_2(self.bytes.split_at(FRONT_BYTES).1));
        let (digests, _) = counted_digests_2(self.bytes.split_at(self.begun.dict_digests).1);
        let leaves = LeafRun {
            left,
            after_term: DICT_BACK_BYTES,
            bytes: self.bytes.split_at(FRONT_BYTES + 2).1,
        };
        let dict = DictView { leaves, digests };
        dict.are_shown();
        dict
    }

    /// The prefixes.
    pub fn lists(&self) -> ListsView<'a>
        ensures { lists_of result ≡ self.now.lists }
    {
        ListsView {
            left: self.begun.present,
            bytes: self.bytes.split_at(self.begun.lists).1,
        }
    }
}

// One of some slots.
pub(crate) fn slot_at(bytes: &[u8], count: u32, i: u32) -> Slot
    requires within { i < count }
    requires space { count * 3 ≤ length bytes.now }
    ensures { slice_get (parts_in slot_size slot_in count bytes.now) i ≡ Some result }
{
    let slot = nth(bytes, count, 3, i);
    Slot {
        present: number_1(slot) == 1,
        index: number_2(slot.split_at(1).1),
    }
}
