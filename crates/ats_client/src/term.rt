//! Shown leaves of a document's terms.

use crate::section::Section;
use ats_hash::Steps;
use ats_proof::{TermLeaf, TermsView};
use ats_tree::Revealed;

/// A shown leaf of a document's terms, with its position there.
#[derive(Clone, Copy)]
pub(crate) struct Term<'a> {
    pub(crate) position: u32,
    pub(crate) leaf: TermLeaf<'a>,
}

impl<'a> Section for TermsView<'a> {
    ghost use Rattle.std.proofs.Props.{props};
    ghost use Rattle.ats_proof.specs.Value.{ShownTerm};
    ghost use Rattle.ats_client.specs.Documents.{term_shown};
    ghost use Rattle.ats_client.specs.Inner.SeenTerms.{terms_left, term_of};

    type Leaf = Term<'a>;

    ghost Item = { ShownTerm };

    ghost item_is_set = { Prim.hlevel props };

    ghost leaves = { terms_left };

    ghost item = { term_of };

    ghost shown = { term_shown };

    #[tactic(auto, unfolding(crate::specs::Inner::SeenTerms::terms_left))]
    fn first(&self) -> Option<Term<'a>> {
        let leaf = self.leaf()?;
        let position = Revealed::position(self)?;
        Some(Term { position, leaf })
    }

    fn position(leaf: &Term<'a>) -> u32 {
        leaf.position
    }

    fn term<'b>(leaf: &'b Term<'a>) -> &'b [u8] {
        leaf.leaf.term
    }

    #[tactic(auto, unfolding(crate::specs::Inner::SeenTerms::terms_left))]
    fn pass(&mut self, steps: &mut Steps) -> bool {
        if self.leaf().is_none() {
            return false;
        }
        self.pass_leaf(steps);
        true
    }
}
