//! Why a proof of all documents that have every term is refused.

use crate::proof::Refusal;

/// The first rule that such a proof breaks, in this order.
#[derive(Clone, Copy, Debug, PartialEq, Eq)]
pub enum BothRefusal {
    /// The proof does not show the terms of its met documents: its algorithm is TNRA.
    NotTra,
    /// The proof has an answer, of this many rows.
    AnswerShown { rows: u32 },
    /// What the proof shows breaks this rule of every check.
    Section(Refusal),
    /// All terms are present, and no list is shown whole.
    NoWholeList,
}
