//! Why a proof is refused.

use ats_grammar::ShapeFault;

/// The first rule that a proof breaks. Terms are counted from 0 in the byte order of the query's terms, absent ones
/// included; entries of a prefix, met documents and rows are counted from 0.
#[derive(Clone, Copy, Debug, PartialEq, Eq)]
pub enum Refusal {
    /// The header has another root.
    OtherRoot,
    /// The proof has another number of slots than the query has terms.
    SlotCount { shown: u32 },
    /// The dictionary section is no part of a tree of the header's size.
    DictMisfit,
    /// The dictionary section is part of another tree.
    DictRoot,
    /// The slot of this term shows neither the term nor its absence.
    SlotWrong { term: u32 },
    /// An entry names no met document.
    IndexOut { term: u32, entry: u32 },
    /// An entry names a document that an earlier entry of its prefix names.
    Repeated { term: u32, entry: u32 },
    /// The prefix is no part of a tree of the size that the dictionary gives.
    ListMisfit { term: u32 },
    /// The prefix is part of another list.
    ListRoot { term: u32 },
    /// No entry names this met document.
    Unmet { index: u32 },
    /// The documents section is no part of a tree of the header's size.
    DocsMisfit,
    /// The documents section is part of another tree.
    DocsRoot,
    /// What is shown of the document's terms is no part of a tree of the size that its leaf gives.
    TermsMisfit { doc: u32 },
    /// What is shown of the document's terms is part of another tree.
    TermsRoot { doc: u32 },
    /// The document's slot of this term shows neither the term nor its absence.
    TermSlot { doc: u32, term: u32 },
    /// A row names no met document.
    AnswerOut { row: u32 },
    /// A row names the document of an earlier row.
    AnswerRepeated { row: u32 },
    /// What is shown does not prove the answer right.
    NotSettled,
}

/// What is wrong with bytes as a proof: their shape, or the first rule that the proof breaks.
#[derive(Clone, Copy, Debug, PartialEq, Eq)]
pub enum Rejection {
    /// The bytes spell no proof.
    Shape(ShapeFault),
    /// The first rule that the proof breaks.
    Check(Refusal),
}
