//! The checks for programs in other languages, as functions for C.
//!
//! A program that shows what a server sent links this library. [`export::ats_check`] checks the proof of an answer,
//! [`export::ats_both`] that of all documents with every term, [`export::ats_catalog`] that of an answer from several
//! archives, [`export::ats_text`] the text of a document, and [`export::ats_growth`] the growth between two roots;
//! [`export::ats_catalog_root`] has the root of a catalog, and [`export::ats_query`] the terms of a query. Each shows what
//! is accepted, or a [`shown::Verdict`] whose numbers say why there is nothing; [`export::ats_line`] makes the line of it
//! that the commands print. `reader/ats_reader.h` at the top of the repository is the same for a reader of C.
//!
//! The room stands on `ats_client`, `ats_all_check`, `ats_catalog_check`, `ats_text_check` and `ats_growth_check`, on no index,
//! and adds no rule of its own. Only what spells something accepted is shown, with its headline for every archive with the root (a file of
//! `specs/` for each call); each other verdict has a stated cause. Buffers are the caller's: nothing is written past what
//! is shown, too little room is reported before anything is written, and a text is not copied. How things are put together
//! may change freely; the numbers, the layout of the structs and the names of the calls may not.
#![tactic(auto)]

mod answers;
mod export;
mod fault;
mod lines;
mod shown;
