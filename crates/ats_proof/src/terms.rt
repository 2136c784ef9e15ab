//! What a proof shows of the terms of a document.

ghost use Rattle.std.specs.Prelude.{◌≡◌, ◌<◌, ◌+◌, ◌^◌, length, slice_get, option_map, map, drop};

use crate::bytes::number_2;
use crate::digests::DigestRun;
use crate::leaves::LeafRun;
use crate::record::TermLeaf;
use ats_grammar::are_bytes;
use ats_hash::Steps;
use ats_tree::Revealed;

/// The leaves of a document's terms that a proof shows, without those that were passed, and the digests left.
#[derive(Clone, Copy)]
pub struct TermsView<'a> {
    pub(crate) leaves: LeafRun<'a>,
    pub(crate) digests: DigestRun<'a>,
    pub ghost after_term: { leaves.after_term ≡ 2 },
}

impl<'a> TermsView<'a> {
    ghost use Rattle.ats_proof.specs.Runs.{shown_term};
    ghost use Rattle.ats_proof.specs.Seen.{leaves_of};
    ghost use Rattle.ats_proof.specs.SeenTerms.{terms_of, term_of};

    // Each leaf left has the bytes that are hashed.
    pub(crate) fn are_shown(&self)
        ensures { leaves_of self.now.leaves ≡ map shown_term (terms_of self.now) }
    {
        are_bytes(self.leaves.bytes);
    }

    /// The first leaf left, `None` if none is left.
    pub fn leaf(&self) -> Option<TermLeaf<'a>>
        ensures leaf { option_map term_of result ≡ option_map (λ t. t.term) (slice_get (terms_of self.now) 0) }
        ensures shown { leaves_of self.now.leaves ≡ map shown_term (terms_of self.now) }
    {
        self.are_shown();
        if self.leaves.left == 0 {
            return None;
        }
        let leaf = self.leaves.first();
        let (_, term) = leaf.front.split_at(1);
        Some(TermLeaf {
            term,
            impact: number_2(leaf.back),
        })
    }
}

impl<'a> Revealed<'a> for TermsView<'a> {
    ghost use Rattle.ats_proof.specs.Seen.{leaves_of, digests_of, term_front};
    ghost use Rattle.ats_proof.specs.SeenTerms.{terms_of};

    ghost shown = { λ s. leaves_of s.leaves };

    ghost digests = { λ s. digests_of s.digests };

    ghost front_part = { λ s. term_front s.leaves.bytes.now };

    fn position(&self) -> Option<u32> {
        self.digests.facts();
        self.leaves.position()
    }

    fn leaf_front(&self) -> &'a [u8] {
        self.leaves.first().front
    }

    fn leaf_back(&self) -> &'a [u8] {
        self.leaves.first().back
    }

    fn pass_leaf(&mut self, steps: &mut Steps)
        requires left { 0 < length (leaves_of self.old.leaves) }
        requires space { steps.old + 1 < 2 ^ 64 }
        ensures passed { leaves_of self.new.leaves ≡ drop 1 (leaves_of self.old.leaves) }
        ensures others { digests_of self.new.digests ≡ digests_of self.old.digests }
        ensures terms { terms_of self.new ≡ drop 1 (terms_of self.old) }
        ensures cost { steps.new ≡ steps.old + 1 }
    {
        self.leaves.pass(steps);
    }

    fn pass_digest(&mut self, steps: &mut Steps) -> Option<&'a [u8]> {
        self.digests.pass(steps)
    }
}
