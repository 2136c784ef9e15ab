//! Why something that a reader checks is refused: the reasons as types, and their words.
//!
//! There is a type for each check: [`Refusal`] for the proof of an answer (with [`Rejection`], which adds the faults of
//! bytes that spell no proof), [`CatalogRefusal`] for that of a catalog's answer, [`TextRefusal`] for the text of a document,
//! [`BothRefusal`] for all documents that have every term, and [`GrowthRefusal`] for a growth. Each has one call that gives
//! its words as a [`Phrase`]: words with a few numbers between them, which need no memory until they are printed.
//!
//! The room stands on `ats_grammar` for the faults of bytes, and on nothing else, so whoever prints why something was
//! refused waits for no check. When a refusal is returned is said where it is checked: in `ats_client`, `ats_catalog_check`,
//! `ats_text_check`, `ats_all_check` and `ats_growth_check`. The words are those of `specs/Words.antt`, and may not change.
//!
//! ```
//! let words = refusal_words(Refusal::ListRoot { term: 0 }).text(alloc)?; // "list-root 0"
//! ```
#![tactic(auto)]

mod catalog;
mod documents;
mod growth;
mod phrases;
mod proof;
mod text;
mod words;

pub use catalog::CatalogRefusal;
pub use documents::BothRefusal;
pub use growth::GrowthRefusal;
pub use phrases::Phrase;
pub use proof::{Refusal, Rejection};
pub use text::TextRefusal;
pub use words::{
    both_refusal_words, catalog_refusal_words, growth_refusal_words, refusal_words,
    rejection_words, text_refusal_words,
};
