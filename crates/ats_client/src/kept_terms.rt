//! The present terms of a query, kept while the met documents are checked.

ghost use Rattle.std.specs.Prelude.{◌≡◌, ◌<◌, ◌≤◌, ◌^◌, ◌∷◌, ◌++◌, List, [], length, slice_get, Some};

use std::marker::Model;

/// A present term: its number in the query, and its weight times its idf.
#[derive(Clone, Copy)]
pub(crate) struct PresentTerm {
    pub(crate) number: u32,
    pub(crate) coefficient: u32,
}

/// The present terms of a query in order, at most 32.
///
/// Each met document is checked against all of them, without reading the slots and the dictionary again: a document that a
/// forged root meets may show only five items, too few to count such reads against. A mask of terms would not give the
/// coefficients.
#[derive(Drop)]
pub(crate) struct PresentTerms {
    terms: [PresentTerm; 32],
    len: u32,
}

impl Model for PresentTerms {
    ghost use Rattle.std.specs.Prelude.{◌≡◌, ◌≤◌, ◌^◌, List, length, take};
    ghost use Rattle.std.specs.List.{All};
    ghost use Rattle.ats_client.specs.declared.kept_terms.PresentTerm.{PresentTerm};

    ghost Value = { List PresentTerm };

    ghost view = { λ p. take p.len p.terms };

    ghost invariant = { λ p. (p.len ≤ 32) × (length p.terms ≡ 32)
        × All (λ (t : PresentTerm). t.coefficient ≤ 2 ^ 17) (take p.len p.terms) };
}

impl PresentTerms {
    /// No term.
    pub(crate) fn none() -> Self
        ensures { result ≡ [] }
    {
        PresentTerms {
            terms: [PresentTerm {
                number: 0,
                coefficient: 0,
            }; 32],
            len: 0,
        }
    }

    /// Appends a term.
    pub(crate) fn push(&mut self, term: PresentTerm)
        requires few { length self.old < 32 }
        requires small { term.coefficient ≤ 2 ^ 17 }
        ensures { self.new ≡ self.old ++ term ∷ [] }
    {
        self.terms[self.len as usize] = term;
        self.len += 1;
    }

    /// How many there are.
    pub(crate) fn len(&self) -> u32
        ensures value { result ≡ length self.now }
        ensures few { result ≤ 32 }
    {
        self.len
    }

    /// The term at a place, counted among the present terms only.
    pub(crate) fn get(&self, i: u32) -> PresentTerm
        requires { i < length self.now }
        ensures term { slice_get self.now i ≡ Some result }
        ensures small { result.coefficient ≤ 2 ^ 17 }
    {
        self.terms[i as usize]
    }
}
