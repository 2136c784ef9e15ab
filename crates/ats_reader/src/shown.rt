//! What a caller is shown, as numbers.

ghost use Rattle.std.specs.Prelude.{◌≡◌, ◌<◌, ◌≤◌, ℕ, List, length, slice_index_or};
ghost use Rattle.ats_reader.specs.Verdicts.{shown_row, shown_catalog_row, shown_term, accepted, refused, of_shard, verdict_of_query, verdict_of_shape, verdict_of_refusal, verdict_of_rejection, verdict_of_catalog, verdict_of_both, verdict_of_text, verdict_of_growth, verdict_of};

use crate::fault::Fault;
use ats_catalog_check::CatalogRow;
use ats_grammar::{ShapeFault, ShapeKind};
use ats_impact::Row;
use ats_refusal::{BothRefusal, CatalogRefusal, GrowthRefusal, Refusal, Rejection, TextRefusal};
use ats_terms::{Query, QueryFault};

/// What is added to the reason for which a proof is refused if it is that of a shard.
pub(crate) const SHARD: u32 = 64;

/// A document of an answer, counted from 0, with bounds of its score.
#[repr(C)]
#[derive(Clone, Copy)]
pub struct ShownRow {
    pub doc: u64,
    pub lower: u64,
    pub upper: u64,
}

/// A document of a catalog's answer: its shard, and its number there, both counted from 0, with bounds of its score.
#[repr(C)]
#[derive(Clone, Copy)]
pub struct ShownCatalogRow {
    pub shard: u64,
    pub doc: u64,
    pub lower: u64,
    pub upper: u64,
}

/// A term of a query.
#[repr(C)]
#[derive(Clone, Copy)]
pub struct ShownTerm {
    /// Its bytes, and 0 in the rest.
    pub word: [u8; 64],
    /// How many bytes it has.
    pub size: u32,
    /// How often the query has it.
    pub weight: u32,
}

/// How a call ended.
#[repr(C)]
#[derive(Clone, Copy)]
pub struct Verdict {
    /// 0: accepted; 1: refused; 2: the query is not UTF-8, or there is too little room; 4: the query, the number of rows
    /// or that of roots is out of its limits; 6: out of memory.
    pub status: u32,
    /// Which fault it is; 0: none. From 64 on it is one of a shard's proof.
    pub reason: u32,
    /// How many rows, documents, terms or shards there are; or the number of the shard, if its proof is refused.
    pub count: u64,
    /// What an accepted text or growth says first, the first number of the line, or 0.
    pub first: u64,
    /// What it says second, the second number of the line, or 0.
    pub second: u64,
}

pub(crate) fn shown_row(row: Row) -> ShownRow
    ensures { result ≡ shown_row row }
{
    ShownRow {
        doc: row.doc as u64,
        lower: row.lower,
        upper: row.upper,
    }
}

pub(crate) fn shown_catalog_row(row: CatalogRow) -> ShownCatalogRow
    ensures { result ≡ shown_catalog_row row }
{
    ShownCatalogRow {
        shard: row.shard as u64,
        doc: row.doc as u64,
        lower: row.lower,
        upper: row.upper,
    }
}

/// Term `i` of a query.
pub(crate) fn shown_term(query: &Query, i: usize) -> ShownTerm
    requires { i < length query.now }
    ensures { (d : List ℕ × ℕ) → result ≡ shown_term (slice_index_or query.now i d) }
{
    let term = query.term(i);
    let mut word = [0; 64];
    word[..term.len()].copy_from_slice(term);
    ShownTerm {
        word,
        size: term.len() as u32,
        weight: query.weight(i) as u32,
    }
}

/// The verdict of what is accepted.
pub(crate) fn accepted(count: usize, first: u64, second: u64) -> Verdict
    ensures { result ≡ accepted count first second }
{
    Verdict {
        status: 0,
        reason: 0,
        count: count as u64,
        first,
        second,
    }
}

// A verdict that shows nothing.
fn refused(status: u32, reason: u32, first: u64, second: u64) -> Verdict
    ensures { result ≡ refused status reason first second }
{
    Verdict {
        status,
        reason,
        count: 0,
        first,
        second,
    }
}

fn of_query(fault: QueryFault) -> Verdict
    ensures { result ≡ verdict_of_query fault }
{
    match fault {
        QueryFault::TooLong { bytes } => refused(4, 4, bytes as u64, 0),
        QueryFault::NoTerm => refused(4, 5, 0, 0),
        QueryFault::TooManyWords { count } => refused(4, 6, count as u64, 0),
        QueryFault::TooManyTerms { distinct } => refused(4, 7, distinct as u64, 0),
        QueryFault::OutOfMemory => refused(6, 34, 0, 0),
    }
}

fn of_shape(kind: ShapeKind, at: u64) -> Verdict
    ensures value { result ≡ verdict_of_shape kind at }
    ensures low { result.reason ≤ 33 }
{
    match kind {
        ShapeKind::Long => refused(1, 8, at, 0),
        ShapeKind::Cut => refused(1, 9, at, 0),
        ShapeKind::Magic => refused(1, 10, at, 0),
        ShapeKind::Version => refused(1, 11, at, 0),
        ShapeKind::Algorithm => refused(1, 12, at, 0),
        ShapeKind::Count => refused(1, 13, at, 0),
        ShapeKind::Order => refused(1, 14, at, 0),
        ShapeKind::Trailing => refused(1, 15, at, 0),
    }
}

fn of_refusal(refusal: Refusal) -> Verdict
    ensures value { result ≡ verdict_of_refusal refusal }
    ensures low { result.reason ≤ 33 }
{
    match refusal {
        Refusal::OtherRoot => refused(1, 16, 0, 0),
        Refusal::SlotCount { shown } => refused(1, 17, shown as u64, 0),
        Refusal::DictMisfit => refused(1, 18, 0, 0),
        Refusal::DictRoot => refused(1, 19, 0, 0),
        Refusal::SlotWrong { term } => refused(1, 20, term as u64, 0),
        Refusal::IndexOut { term, entry } => refused(1, 21, term as u64, entry as u64),
        Refusal::Repeated { term, entry } => refused(1, 22, term as u64, entry as u64),
        Refusal::ListMisfit { term } => refused(1, 23, term as u64, 0),
        Refusal::ListRoot { term } => refused(1, 24, term as u64, 0),
        Refusal::Unmet { index } => refused(1, 25, index as u64, 0),
        Refusal::DocsMisfit => refused(1, 26, 0, 0),
        Refusal::DocsRoot => refused(1, 27, 0, 0),
        Refusal::TermsMisfit { doc } => refused(1, 28, doc as u64, 0),
        Refusal::TermsRoot { doc } => refused(1, 29, doc as u64, 0),
        Refusal::TermSlot { doc, term } => refused(1, 30, doc as u64, term as u64),
        Refusal::AnswerOut { row } => refused(1, 31, row as u64, 0),
        Refusal::AnswerRepeated { row } => refused(1, 32, row as u64, 0),
        Refusal::NotSettled => refused(1, 33, 0, 0),
    }
}

fn of_rejection(rejection: Rejection) -> Verdict
    ensures value { result ≡ verdict_of_rejection rejection }
    ensures low { result.reason ≤ 33 }
{
    match rejection {
        Rejection::Shape(ShapeFault { at, kind }) => of_shape(kind, at),
        Rejection::Check(refusal) => of_refusal(refusal),
    }
}

// The verdict of a proof as that of a shard.
fn of_shard(shard: u32, verdict: Verdict) -> Verdict
    requires { verdict.reason ≤ 33 }
    ensures { result ≡ of_shard shard verdict }
{
    Verdict {
        reason: verdict.reason + SHARD,
        count: shard as u64,
        ..verdict
    }
}

fn of_catalog(refusal: CatalogRefusal) -> Verdict
    ensures { result ≡ verdict_of_catalog refusal }
{
    match refusal {
        CatalogRefusal::OtherRoot => refused(1, 16, 0, 0),
        CatalogRefusal::Shard { shard, rejection } => of_shard(shard, of_rejection(rejection)),
        CatalogRefusal::NotSettled => refused(1, 33, 0, 0),
    }
}

fn of_both(refusal: BothRefusal) -> Verdict
    ensures { result ≡ verdict_of_both refusal }
{
    match refusal {
        BothRefusal::NotTra => refused(1, 35, 0, 0),
        BothRefusal::AnswerShown { rows } => refused(1, 36, rows as u64, 0),
        BothRefusal::Section(refusal) => of_refusal(refusal),
        BothRefusal::NoWholeList => refused(1, 37, 0, 0),
    }
}

fn of_text(refusal: TextRefusal) -> Verdict
    ensures { result ≡ verdict_of_text refusal }
{
    match refusal {
        TextRefusal::OtherRoot => refused(1, 16, 0, 0),
        TextRefusal::DocOut { documents } => refused(1, 39, documents as u64, 0),
        TextRefusal::TextMisfit { digests } => refused(1, 40, digests as u64, 0),
        TextRefusal::TextRoot => refused(1, 41, 0, 0),
    }
}

fn of_growth(refusal: GrowthRefusal) -> Verdict
    ensures { result ≡ verdict_of_growth refusal }
{
    match refusal {
        GrowthRefusal::OtherOld => refused(1, 42, 0, 0),
        GrowthRefusal::OtherNew => refused(1, 43, 0, 0),
        GrowthRefusal::Shrunk { old, new } => refused(1, 44, old as u64, new as u64),
        GrowthRefusal::GrowthMisfit { digests } => refused(1, 45, digests as u64, 0),
        GrowthRefusal::OldTexts => refused(1, 46, 0, 0),
        GrowthRefusal::NewTexts => refused(1, 47, 0, 0),
    }
}

/// The verdict of a fault.
pub(crate) fn of_fault(fault: Fault) -> Verdict
    ensures { result ≡ verdict_of fault }
{
    match fault {
        Fault::NoText => refused(2, 1, 0, 0),
        Fault::RowsOut { r } => refused(4, 2, r as u64, 0),
        Fault::FewRows { room } => refused(2, 3, room as u64, 0),
        Fault::NoQuery(query) => of_query(query),
        Fault::BadShape(ShapeFault { at, kind }) => of_shape(kind, at),
        Fault::Refused(refusal) => of_refusal(refusal),
        Fault::BothRefused(refusal) => of_both(refusal),
        Fault::FewDocuments { room, documents } => refused(2, 38, room as u64, documents as u64),
        Fault::TextRefused(refusal) => of_text(refusal),
        Fault::GrowthRefused(refusal) => of_growth(refusal),
        Fault::FewTerms { room, terms } => refused(2, 48, room as u64, terms as u64),
        Fault::CatalogRefused(refusal) => of_catalog(refusal),
        Fault::RootsOut { bytes } => refused(4, 49, bytes as u64, 0),
        Fault::OutOfMemory => refused(6, 34, 0, 0),
    }
}
