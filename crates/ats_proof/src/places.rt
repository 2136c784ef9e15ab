//! Where the parts of a proof begin in its bytes.

ghost use Rattle.std.specs.Prelude.{◌≡◌, ◌≤◌, ◌<◌, ◌+◌, ◌*◌, ◌^◌, true, length, drop};
ghost use Rattle.ats_proof.specs.Reading.{dict_digests_place, slots_place, doc_digests_place, sections_place, answer_place};
ghost use Rattle.ats_proof.specs.Inner.Told.{HasSpace};

use crate::bytes::{number_2, number_4};
use crate::record::{DICT_BACK_BYTES, FRONT_BYTES};
use crate::sizes::{
    counted_digests_size_2, counted_digests_size_4, counted_leaves_size, present_count,
    sections_size,
};
use ats_doctree::DOC_LEAF_BYTES;

/// The parts up to the prefixes. The leaves of the dictionary begin at 115.
#[derive(Clone, Copy)]
pub(crate) struct Begun {
    pub(crate) terms: u32,
    pub(crate) dict_digests: usize,
    pub(crate) slots: usize,
    /// How many terms are present.
    pub(crate) present: u32,
    pub(crate) met_at: usize,
    /// How many documents are met.
    pub(crate) met: u32,
    pub(crate) lists: usize,
}

/// The parts after the prefixes.
#[derive(Clone, Copy)]
pub(crate) struct Ended {
    pub(crate) doc_digests: usize,
    pub(crate) sections: usize,
    pub(crate) answer: usize,
}

// Where the digests of the dictionary begin.
fn dict_digests_at(bytes: &[u8]) -> usize
    requires { HasSpace bytes.now }
    ensures { result ≡ dict_digests_place bytes.now }
{
    FRONT_BYTES + counted_leaves_size(DICT_BACK_BYTES, bytes.split_at(FRONT_BYTES).1)
}

// Where the slots begin, after those digests.
fn slots_at(bytes: &[u8], dict_digests: usize) -> usize
    requires space { HasSpace bytes.now }
    requires at { dict_digests ≡ dict_digests_place bytes.now }
    ensures { result ≡ slots_place bytes.now }
{
    dict_digests + counted_digests_size_2(bytes.split_at(dict_digests).1)
}

// Where the terms sections begin, after the digests of the documents.
fn sections_at(bytes: &[u8], doc_digests: usize) -> usize
    requires few { length bytes.now ≤ 2 ^ 26 }
    requires space { answer_place true bytes.now ≤ length bytes.now }
    requires at { doc_digests ≡ doc_digests_place bytes.now }
    ensures { result ≡ sections_place bytes.now }
{
    doc_digests + counted_digests_size_4(bytes.split_at(doc_digests).1)
}

impl Begun {
    ghost use Rattle.ats_proof.specs.Inner.Told.{IsBegun};

    /// The parts up to the prefixes.
    pub(crate) fn of(bytes: &[u8]) -> Begun
        requires { HasSpace bytes.now }
        ensures { IsBegun bytes.now result }
    {
        let terms = u32::from(number_2(bytes.split_at(111).1));
        let dict_digests = dict_digests_at(bytes);
        let slots = slots_at(bytes, dict_digests);
        let met_at = slots + terms as usize * 3;
        let met = number_4(bytes.split_at(met_at).1);
        Begun {
            terms,
            dict_digests,
            slots,
            present: present_count(terms, bytes.split_at(slots).1),
            met_at,
            met,
            lists: met_at + 4 + met as usize * 4,
        }
    }
}

impl Ended {
    ghost use Rattle.ats_proof.specs.Reading.{is_tra, docs_place, met_in, slots_in};
    ghost use Rattle.ats_proof.specs.Inner.Told.{IsEnded};
    ghost use Rattle.ats_proof.specs.Value.{present_in};

    // The parts after the prefixes if documents are shown.
    fn of_tra(bytes: &[u8], docs: usize, met: u32, present: u32) -> Ended
        requires few { length bytes.now ≤ 2 ^ 26 }
        requires docs { docs ≡ docs_place bytes.now }
        requires met { met ≡ met_in bytes.now }
        requires present { present ≡ present_in (slots_in bytes.now) }
        requires space { answer_place true bytes.now ≤ length bytes.now }
        ensures { IsEnded bytes.now true result }
    {
        let doc_digests = docs + met as usize * DOC_LEAF_BYTES;
        let sections = sections_at(bytes, doc_digests);
        Ended {
            doc_digests,
            sections,
            answer: sections + sections_size(present, met, bytes.split_at(sections).1),
        }
    }

    /// The parts after the prefixes.
    pub(crate) fn of(bytes: &[u8], tra: bool, docs: usize, met: u32, present: u32) -> Ended
        requires space { HasSpace bytes.now }
        requires tra { tra ≡ is_tra bytes.now }
        requires docs { docs ≡ docs_place bytes.now }
        requires met { met ≡ met_in bytes.now }
        requires present { present ≡ present_in (slots_in bytes.now) }
        ensures { IsEnded bytes.now tra result }
    {
        if tra {
            return Ended::of_tra(bytes, docs, met, present);
        }
        Ended {
            doc_digests: docs,
            sections: docs,
            answer: docs,
        }
    }
}
