//! Brackets from what is known of met documents.

ghost use Rattle.std.specs.Prelude.{◌≡◌, ◌↔◌, IsTrue, IfOk};
ghost use Rattle.ats_bound.specs.Cut.{bracket};
ghost use Rattle.ats_bound.specs.Cursors.{shown_on};
ghost use Rattle.ats_bound.specs.Inner.MetDocuments.{AreMetDocuments, IsKnown};
ghost use Rattle.ats_bound.specs.Inner.Running.{DoOverlap, IsAround};
ghost use Rattle.ats_bound.specs.Schedule.{AreBracketsOf};

use crate::bracket::{Bracket, Brackets};
use crate::cursors::Cursors;
use crate::memory::OutOfMemory;
use crate::met_documents::{Met, MetDocuments};
use std::alloc::Global;

/// The bracket of a document.
pub(crate) fn bracket_of(cursors: &Cursors<'_>, met: Met) -> Bracket
    requires { IsKnown (shown_on cursors.now) met }
    ensures { result ≡ bracket (shown_on cursors.now) met.doc }
{
    Bracket {
        doc: met.doc,
        lo: met.lo,
        hi: met.lo + cursors.missing(met.named),
    }
}

/// Whether a bracket lies around this score.
pub(crate) fn is_around(score: u64, bracket: Bracket) -> bool
    ensures { IsTrue result ↔ IsAround score bracket }
{
    bracket.lo < score && score < bracket.hi
}

/// Whether the brackets of two documents overlap, and one goes above this score.
pub(crate) fn overlap(score: u64, a: Bracket, b: Bracket) -> bool
    ensures { IsTrue result ↔ DoOverlap score a b }
{
    a.doc != b.doc && b.lo < a.hi && a.lo < b.hi && (score < a.hi || score < b.hi)
}

/// The brackets of all met documents, by document ascending.
pub(crate) fn brackets(
    alloc: Global,
    cursors: &Cursors<'_>,
    known: &MetDocuments,
) -> Result<Brackets, OutOfMemory>
    requires { AreMetDocuments (shown_on cursors.now) known.now }
    ensures { IfOk result (AreBracketsOf (shown_on cursors.now)) }
{
    let mut all: Vec<Bracket> = Vec::with_capacity(alloc, known.len())?;
    for met in known.as_slice() {
        all.push(bracket_of(cursors, *met))?;
    }
    Brackets::sorted(all)
}
