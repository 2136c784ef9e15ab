//! The line of a verdict.

ghost use Rattle.std.specs.Prelude.{◌≡◌, ◌<◌, ◌^◌, true, IfOk, string_bytes};
ghost use Rattle.ats_reader.specs.Lines.{shape_of, refusal_of, rule_words, are_small, rejection_of, refused_words, shard_words, words_of, other_words, line_of};

use crate::shown::{SHARD, Verdict};
use ats_grammar::{ShapeFault, ShapeKind};
use ats_refusal::{
    BothRefusal, CatalogRefusal, GrowthRefusal, Phrase, Refusal, Rejection, TextRefusal,
    both_refusal_words, catalog_refusal_words, growth_refusal_words, refusal_words,
    rejection_words, text_refusal_words,
};
use std::alloc::{AllocError, Global};

// The kind of a fault of the shape.
fn shape_of(reason: u32) -> Option<ShapeKind>
    ensures { result ≡ shape_of reason }
{
    match reason {
        8 => Some(ShapeKind::Long),
        9 => Some(ShapeKind::Cut),
        10 => Some(ShapeKind::Magic),
        11 => Some(ShapeKind::Version),
        12 => Some(ShapeKind::Algorithm),
        13 => Some(ShapeKind::Count),
        14 => Some(ShapeKind::Order),
        15 => Some(ShapeKind::Trailing),
        _ => None,
    }
}

// The rule that a proof breaks before its answer is settled.
fn refusal_of(reason: u32, first: u32, second: u32) -> Option<Refusal>
    ensures { result ≡ refusal_of reason first second }
{
    let (term, entry) = (first, second);
    let refusal = match reason {
        16 => Refusal::OtherRoot,
        17 => Refusal::SlotCount { shown: first },
        18 => Refusal::DictMisfit,
        19 => Refusal::DictRoot,
        20 => Refusal::SlotWrong { term },
        21 => Refusal::IndexOut { term, entry },
        22 => Refusal::Repeated { term, entry },
        23 => Refusal::ListMisfit { term },
        24 => Refusal::ListRoot { term },
        25 => Refusal::Unmet { index: first },
        26 => Refusal::DocsMisfit,
        27 => Refusal::DocsRoot,
        28 => Refusal::TermsMisfit { doc: first },
        29 => Refusal::TermsRoot { doc: first },
        30 => Refusal::TermSlot {
            doc: first,
            term: second,
        },
        31 => Refusal::AnswerOut { row: first },
        32 => Refusal::AnswerRepeated { row: first },
        _ => return None,
    };
    Some(refusal)
}

// The words of any other rule that does not hold.
fn rule_words(reason: u32, first: u32, second: u32) -> Option<Phrase>
    ensures { result ≡ rule_words reason first second }
{
    let (old, new) = (first, second);
    let words = match reason {
        33 => refusal_words(Refusal::NotSettled),
        35 => both_refusal_words(BothRefusal::NotTra),
        36 => both_refusal_words(BothRefusal::AnswerShown { rows: first }),
        37 => both_refusal_words(BothRefusal::NoWholeList),
        39 => text_refusal_words(TextRefusal::DocOut { documents: first }),
        40 => text_refusal_words(TextRefusal::TextMisfit { digests: first }),
        41 => text_refusal_words(TextRefusal::TextRoot),
        42 => growth_refusal_words(GrowthRefusal::OtherOld),
        43 => growth_refusal_words(GrowthRefusal::OtherNew),
        44 => growth_refusal_words(GrowthRefusal::Shrunk { old, new }),
        45 => growth_refusal_words(GrowthRefusal::GrowthMisfit { digests: first }),
        46 => growth_refusal_words(GrowthRefusal::OldTexts),
        47 => growth_refusal_words(GrowthRefusal::NewTexts),
        _ => return None,
    };
    Some(words)
}

// Whether both may be numbers of a rule.
fn are_small(first: u64, second: u64) -> bool
    ensures value { result ≡ are_small first second }
    ensures small { result ≡ true → (first < 2 ^ 32) × (second < 2 ^ 32) }
{
    first < 1 << 32 && second < 1 << 32
}

// What is wrong with a proof before its answer is settled.
fn rejection_of(reason: u32, first: u64, second: u64) -> Option<Rejection>
    ensures { result ≡ rejection_of reason first second }
{
    if let Some(kind) = shape_of(reason) {
        return Some(Rejection::Shape(ShapeFault { at: first, kind }));
    }
    if !are_small(first, second) {
        return None;
    }
    let refusal = refusal_of(reason, first as u32, second as u32)?;
    Some(Rejection::Check(refusal))
}

// The words of a refusal after the first one.
fn refused_words(reason: u32, first: u64, second: u64) -> Option<Phrase>
    ensures { result ≡ refused_words reason first second }
{
    if let Some(rejection) = rejection_of(reason, first, second) {
        return Some(rejection_words(rejection));
    }
    if are_small(first, second) {
        return rule_words(reason, first as u32, second as u32);
    }
    None
}

// The same if the proof of a shard is refused.
fn shard_words(shard: u64, reason: u32, first: u64, second: u64) -> Option<Phrase>
    ensures { result ≡ shard_words shard reason first second }
{
    if shard >= 1 << 32 {
        return None;
    }
    let rejection = rejection_of(reason, first, second)?;
    Some(catalog_refusal_words(CatalogRefusal::Shard {
        shard: shard as u32,
        rejection,
    }))
}

// The words of a refusal after the first one. From 64 on a reason is one of a shard's proof.
fn words_of(verdict: &Verdict) -> Option<Phrase>
    ensures { result ≡ words_of verdict.now }
{
    let (reason, first, second) = (verdict.reason, verdict.first, verdict.second);
    if reason < SHARD {
        return refused_words(reason, first, second);
    }
    shard_words(verdict.count, reason - SHARD, first, second)
}

// The line of any other reason. It is empty for what is accepted, and for a reason that is none.
fn other_words(reason: u32, first: u64) -> Phrase
    ensures { result ≡ other_words reason first }
{
    match reason {
        1 => Phrase::plain("usage: query is not UTF-8"),
        2 => Phrase::number("input: r ", first),
        3 => Phrase::around("usage: room for ", first, " rows"),
        4 => Phrase::around("input: query of ", first, " bytes"),
        5 => Phrase::plain("input: query has no term"),
        6 => Phrase::around("input: query of ", first, " words"),
        7 => Phrase::around("input: query of ", first, " terms"),
        34 => Phrase::plain("memory"),
        38 => Phrase::around("usage: room for ", first, " documents"),
        48 => Phrase::around("usage: room for ", first, " terms"),
        49 => Phrase::around("input: roots of ", first, " bytes"),
        _ => Phrase::plain(""),
    }
}

/// The line of a verdict, without a line feed.
pub(crate) fn line(alloc: Global, verdict: &Verdict) -> Result<String, AllocError>
    ensures { IfOk result (λ line. string_bytes line ≡ line_of verdict.now) }
{
    match words_of(verdict) {
        Some(words) => {
            let words = words.text(alloc)?;
            format!(in alloc; "refused: {words}")
        }
        None => other_words(verdict.reason, verdict.first).text(alloc),
    }
}
