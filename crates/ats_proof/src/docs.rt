//! The met documents with what is shown of their terms.

ghost use Rattle.std.specs.Prelude.{◌≡◌, ◌≤◌, ◌<◌, ◌+◌, ◌*◌, ◌^◌, length, map, drop, slice_get, option_map, Some};
ghost use Rattle.ats_proof.specs.Parts.{parts_in, total_size};
ghost use Rattle.ats_proof.specs.Reading.{section_size, section_in};
ghost use Rattle.ats_proof.specs.Runs.{sections_rise};

use crate::bytes::{digest, number_2, number_4};
use crate::digests::counted_digests_2;
use crate::docs_cursor::DocsCursor;
use crate::leaves::LeafRun;
use crate::record::Slot;
use crate::sizes::counted_leaves_size;
use crate::terms::TermsView;
use crate::view::{ProofView, slot_at};
use ats_doctree::{DOC_LEAF_BYTES, DocLeaf};
use ats_hash::Steps;

/// The met documents that are left, in their order.
#[derive(Clone, Copy)]
pub struct DocsView<'a> {
    pub(crate) left: u32,
    pub(crate) ids: &'a [u8],
    pub(crate) leaves: &'a [u8],
    pub(crate) present: u32,
    pub(crate) sections: &'a [u8],
    /// The whole documents section.
    pub(crate) whole: DocsCursor<'a>,
    pub ghost ids_space: { left * 4 ≤ length ids.now },
    pub ghost leaves_space: { left * 36 ≤ length leaves.now },
    pub ghost fits: { total_size (section_size present) left sections.now ≤ length sections.now },
    pub ghost rise: { sections_rise present left sections.now },
}

/// A met document, its leaf in the documents tree, and what is shown of its terms.
#[derive(Clone, Copy)]
pub struct DocView<'a> {
    pub(crate) doc: u32,
    pub(crate) leaf: &'a [u8],
    pub(crate) terms: TermsView<'a>,
    pub(crate) present: u32,
    pub(crate) slots: &'a [u8],
    pub ghost leaf_space: { 36 ≤ length leaf.now },
    pub ghost slots_space: { present * 3 ≤ length slots.now },
}

impl<'a> DocsView<'a> {
    ghost use Rattle.ats_proof.specs.SeenDocs.{ids_of, doc_leaves_of, sections_of, section_of, leaf_of, doc_of, docs_leaves_of, whole_leaves_of, whole_digests_of};
    ghost use Rattle.ats_proof.specs.Seen.{digests_of};

    /// The documents section. It is whole, however many documents were passed.
    pub fn revealed(&self, _proof: &ProofView<'a>) -> DocsCursor<'a>
        ensures shown { docs_leaves_of result ≡ whole_leaves_of self.now }
        ensures digests { digests_of result.digests ≡ whole_digests_of self.now }
    {
        self.whole
    }

    // The first document left, and the sections after its own.
    fn cut(&self) -> (DocView<'a>, &'a [u8])
        requires { 0 < self.now.left }
        ensures doc { slice_get (ids_of self.now) 0 ≡ Some (doc_of result.0) }
        ensures leaf { slice_get (doc_leaves_of self.now) 0 ≡ Some (leaf_of result.0) }
        ensures section { section_of result.0 ≡ section_in self.now.present self.now.sections.now }
        ensures rest { result.1.now ≡ drop (section_size self.now.present self.now.sections.now) self.now.sections.now }
    {
        let size = counted_leaves_size(2, self.sections);
        let leaves = LeafRun {
            left: u32::from(number_2(self.sections)),
            after_term: 2,
            bytes: self.sections.split_at(2).1,
        };
        let (digests, slots) = counted_digests_2(self.sections.split_at(size).1);
        let doc = DocView {
            doc: number_4(self.ids),
            leaf: self.leaves,
            terms: TermsView { leaves, digests },
            present: self.present,
            slots,
        };
        (doc, slots.split_at(self.present as usize * 3).1)
    }

    /// Removes and returns the first document left, `None` if none is left.
    pub fn next(&mut self, steps: &mut Steps) -> Option<DocView<'a>>
        requires { steps.old + 1 < 2 ^ 64 }
        ensures doc { option_map doc_of result ≡ slice_get (ids_of self.old) 0 }
        ensures leaf { option_map leaf_of result ≡ slice_get (doc_leaves_of self.old) 0 }
        ensures section { option_map section_of result ≡ slice_get (sections_of self.old) 0 }
        ensures passed_ids { ids_of self.new ≡ drop 1 (ids_of self.old) }
        ensures passed_leaves { doc_leaves_of self.new ≡ drop 1 (doc_leaves_of self.old) }
        ensures passed_sections { sections_of self.new ≡ drop 1 (sections_of self.old) }
        ensures whole_leaves { whole_leaves_of self.new ≡ whole_leaves_of self.old }
        ensures whole_digests { whole_digests_of self.new ≡ whole_digests_of self.old }
        ensures cost { steps.new ≡ steps.old + 1 }
    {
        steps.tick();
        if self.left == 0 {
            return None;
        }
        let (doc, sections) = self.cut();
        *self = DocsView {
            left: self.left - 1,
            ids: self.ids.split_at(4).1,
            leaves: self.leaves.split_at(DOC_LEAF_BYTES).1,
            present: self.present,
            sections,
            whole: self.whole,
        };
        Some(doc)
    }
}

impl<'a> DocView<'a> {
    ghost use Rattle.ats_proof.specs.Runs.{shown_term};
    ghost use Rattle.ats_proof.specs.Seen.{leaves_of, digests_of};
    ghost use Rattle.ats_proof.specs.SeenDocs.{section_of, leaf_of, doc_of};
    ghost use Rattle.ats_proof.specs.SeenTerms.{terms_of};

    /// The document's number.
    pub fn doc(&self) -> u32
        ensures { result ≡ doc_of self.now }
    {
        self.doc
    }

    /// The document's leaf in the documents tree.
    pub fn leaf(&self) -> DocLeaf
        ensures { result ≡ leaf_of self.now }
    {
        DocLeaf {
            leaves: number_4(self.leaf),
            root: digest(self.leaf.split_at(4).1),
        }
    }

    /// What is shown of the document's terms.
    pub fn terms(&self) -> TermsView<'a>
        ensures leaves { terms_of result ≡ (section_of self.now).leaves }
        ensures shown { leaves_of result.leaves ≡ map shown_term (section_of self.now).leaves }
        ensures digests { digests_of result.digests ≡ (section_of self.now).digests }
    {
        self.terms.are_shown();
        self.terms
    }

    /// The slot of a present term, counted among the present terms only.
    pub fn slot(&self, i: u32, steps: &mut Steps) -> Slot
        requires within { i < length (section_of self.now).slots }
        requires space { steps.old + 1 < 2 ^ 64 }
        ensures slot { slice_get (section_of self.now).slots i ≡ Some result }
        ensures cost { steps.new ≡ steps.old + 1 }
    {
        steps.tick();
        slot_at(self.slots, self.present, i)
    }
}
