//! Impacts of the query's terms, looked up in the documents.

ghost use Rattle.std.specs.Prelude.{map};
ghost use Rattle.ats_honest.specs.Lanes.{impacts_of, lane_of};

use crate::present_terms::PresentTerms;
use ats_doctree::Spot;
use ats_hash::HashKind;
use ats_index::Index;
use ats_tra::RandomAccess;

/// The impacts of some terms in the documents of an index. Each is found in the document's own terms when it is read.
#[derive(Drop)]
pub(crate) struct Impacts<'a, 'q, H: HashKind> {
    pub(crate) index: &'a Index<H>,
    pub(crate) present: &'a PresentTerms<'q>,
}

impl<H: HashKind> RandomAccess for Impacts<'_, '_, H> {
    ghost table = { λ access. impacts_of (map (lane_of access.index.now.texts) access.present.now) };

    fn impact(&self, lane: u32, doc: u32) -> u16 {
        if lane as usize >= self.present.len() || doc >= self.index.collection().documents() {
            return 0;
        }
        let terms = self.index.doc_terms(doc);
        match terms.find(self.present.term(lane as usize)) {
            Spot::At(p) => terms.impact(p),
            Spot::Between(_) => 0,
        }
    }
}
