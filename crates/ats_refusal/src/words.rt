//! The words of refusals, as they are printed after the first word of a line.

ghost use Rattle.std.specs.Prelude.{◌≡◌};
ghost use Rattle.ats_refusal.specs.Inner.Phrase.{text_of_form};
ghost use Rattle.ats_refusal.specs.Words.{shape_words, refusal_words, rejection_words, catalog_refusal_words, text_refusal_words, both_refusal_words, growth_refusal_words};

use crate::catalog::CatalogRefusal;
use crate::documents::BothRefusal;
use crate::growth::GrowthRefusal;
use crate::phrases::{Form, Phrase};
use crate::proof::{Refusal, Rejection};
use crate::text::TextRefusal;
use ats_grammar::{ShapeFault, ShapeKind};

fn shape_words(kind: ShapeKind) -> &'static str
    ensures { result.now ≡ shape_words kind }
{
    match kind {
        ShapeKind::Long => "shape long ",
        ShapeKind::Cut => "shape cut ",
        ShapeKind::Magic => "shape magic ",
        ShapeKind::Version => "shape version ",
        ShapeKind::Algorithm => "shape algorithm ",
        ShapeKind::Count => "shape count ",
        ShapeKind::Order => "shape order ",
        ShapeKind::Trailing => "shape trailing ",
    }
}

fn refusal_form(refusal: Refusal) -> Form
    ensures { text_of_form result ≡ refusal_words refusal }
{
    match refusal {
        Refusal::OtherRoot => Form::Plain("other-root"),
        Refusal::SlotCount { shown } => Form::Number("slot-count ", shown as u64),
        Refusal::DictMisfit => Form::Plain("dict-misfit"),
        Refusal::DictRoot => Form::Plain("dict-root"),
        Refusal::SlotWrong { term } => Form::Number("slot-wrong ", term as u64),
        Refusal::IndexOut { term, entry } => Form::Numbers(
            "index-out ",
            term as u64,
            " ",
            entry as u64,
        ),
        Refusal::Repeated { term, entry } => Form::Numbers(
            "repeated ",
            term as u64,
            " ",
            entry as u64,
        ),
        Refusal::ListMisfit { term } => Form::Number("list-misfit ", term as u64),
        Refusal::ListRoot { term } => Form::Number("list-root ", term as u64),
        Refusal::Unmet { index } => Form::Number("unmet ", index as u64),
        Refusal::DocsMisfit => Form::Plain("docs-misfit"),
        Refusal::DocsRoot => Form::Plain("docs-root"),
        Refusal::TermsMisfit { doc } => Form::Number("terms-misfit ", doc as u64),
        Refusal::TermsRoot { doc } => Form::Number("terms-root ", doc as u64),
        Refusal::TermSlot { doc, term } => Form::Numbers(
            "term-slot ",
            doc as u64,
            " ",
            term as u64,
        ),
        Refusal::AnswerOut { row } => Form::Number("answer-out ", row as u64),
        Refusal::AnswerRepeated { row } => Form::Number("answer-repeated ", row as u64),
        Refusal::NotSettled => Form::Plain("not-settled"),
    }
}

fn rejection_form(rejection: Rejection) -> Form
    ensures { text_of_form result ≡ rejection_words rejection }
{
    match rejection {
        Rejection::Shape(ShapeFault { at, kind }) => Form::Number(shape_words(kind), at),
        Rejection::Check(refusal) => refusal_form(refusal),
    }
}

/// The words of a refusal of the proof of an answer.
pub fn refusal_words(refusal: Refusal) -> Phrase
    ensures { result ≡ refusal_words refusal }
{
    Phrase::of(refusal_form(refusal))
}

/// The words of a rejection of bytes as a proof, or as another file if it is that of a shape.
pub fn rejection_words(rejection: Rejection) -> Phrase
    ensures { result ≡ rejection_words rejection }
{
    Phrase::of(rejection_form(rejection))
}

/// The words of a refusal of the proof of a catalog's answer.
pub fn catalog_refusal_words(refusal: CatalogRefusal) -> Phrase
    ensures { result ≡ catalog_refusal_words refusal }
{
    match refusal {
        CatalogRefusal::OtherRoot => Phrase::plain("other-root"),
        CatalogRefusal::Shard { shard, rejection } => Phrase::led(
            "shard ",
            shard as u64,
            " ",
            rejection_form(rejection),
        ),
        CatalogRefusal::NotSettled => Phrase::plain("not-settled"),
    }
}

/// The words of a refusal of the text of a document.
pub fn text_refusal_words(refusal: TextRefusal) -> Phrase
    ensures { result ≡ text_refusal_words refusal }
{
    match refusal {
        TextRefusal::OtherRoot => Phrase::plain("other-root"),
        TextRefusal::DocOut { documents } => Phrase::number("doc-out ", documents as u64),
        TextRefusal::TextMisfit { digests } => Phrase::number("text-misfit ", digests as u64),
        TextRefusal::TextRoot => Phrase::plain("text-root"),
    }
}

/// The words of a refusal of a proof of all documents with every term.
pub fn both_refusal_words(refusal: BothRefusal) -> Phrase
    ensures { result ≡ both_refusal_words refusal }
{
    match refusal {
        BothRefusal::NotTra => Phrase::plain("not-tra"),
        BothRefusal::AnswerShown { rows } => Phrase::number("answer-shown ", rows as u64),
        BothRefusal::Section(refusal) => refusal_words(refusal),
        BothRefusal::NoWholeList => Phrase::plain("no-whole-list"),
    }
}

/// The words of a refusal of a growth.
pub fn growth_refusal_words(refusal: GrowthRefusal) -> Phrase
    ensures { result ≡ growth_refusal_words refusal }
{
    match refusal {
        GrowthRefusal::OtherOld => Phrase::plain("other-old"),
        GrowthRefusal::OtherNew => Phrase::plain("other-new"),
        GrowthRefusal::Shrunk { old, new } => Phrase::numbers(
            "shrunk ", old as u64, " ", new as u64,
        ),
        GrowthRefusal::GrowthMisfit { digests } => Phrase::number("growth-misfit ", digests as u64),
        GrowthRefusal::OldTexts => Phrase::plain("old-texts"),
        GrowthRefusal::NewTexts => Phrase::plain("new-texts"),
    }
}
