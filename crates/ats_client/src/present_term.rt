//! The present terms, one by one.

ghost use Rattle.std.specs.Prelude.{◌≡◌, ◌≤◌, ◌^◌};
ghost use Rattle.ats_client.specs.Inner.SeenLists.{presented_of};
ghost use Rattle.ats_client.specs.Inner.KeptTerms.{kept_term};

use crate::kept_terms::PresentTerm;
use ats_dict::DictLeaf;
use ats_impact::idf;
use ats_proof::ListView;

/// A present term: its number in the query, its weight, its leaf in the dictionary and its prefix.
#[derive(Clone, Copy)]
pub(crate) struct Present<'a> {
    pub(crate) number: u32,
    pub(crate) weight: u8,
    pub(crate) entry: DictLeaf<'a>,
    pub(crate) list: ListView<'a>,
}

impl Present<'_> {
    /// The number and the coefficient of the term, with its idf among `documents` documents.
    pub(crate) fn kept(&self, documents: u32) -> PresentTerm
        ensures term { result ≡ kept_term documents (presented_of self.now) }
        ensures small { result.coefficient ≤ 2 ^ 17 }
    {
        PresentTerm {
            number: self.number,
            coefficient: u32::from(self.weight) * idf(documents, self.entry.f),
        }
    }
}
