//! The state of a reader of a proof.

ghost use Rattle.std.specs.Prelude.{◌+◌, ◌<◌, ◌^◌};
ghost use Rattle.ats_grammar.specs.Pending.{pending};

/// The fields of the front, of the header, and the number of query terms.
#[derive(Clone, Copy)]
pub(crate) enum FrontPart {
    Magic,
    Version,
    Algorithm,
    HeaderVersion,
    Documents,
    DictLeaves,
    DictRoot,
    DocsRoot,
    TextsRoot,
    Terms,
}

/// The fields of the dictionary section.
#[derive(Clone, Copy)]
pub(crate) enum DictPart {
    LeafCount,
    Position,
    Length,
    Term,
    Frequency,
    ListRoot,
    DigestCount,
    Digest,
}

/// The fields of the slots and of the met ids.
#[derive(Clone, Copy)]
pub(crate) enum MetPart {
    SlotKind,
    SlotIndex,
    MetCount,
    MetId,
}

/// The fields of the prefixes.
#[derive(Clone, Copy)]
pub(crate) enum ListPart {
    EntryCount,
    MetIndex,
    Impact,
    DigestCount,
    Digest,
}

/// The fields of the documents section and of the answer.
#[derive(Clone, Copy)]
pub(crate) enum DocsPart {
    LeafTerms,
    TermsRoot,
    DigestCount,
    Digest,
    RowCount,
    Row,
    End,
}

/// The fields of a terms section.
#[derive(Clone, Copy)]
pub(crate) enum TermsPart {
    LeafCount,
    Position,
    Length,
    Term,
    Impact,
    DigestCount,
    Digest,
    SlotKind,
    SlotIndex,
}

/// The field that comes next.
#[derive(Clone, Copy)]
pub(crate) enum Part {
    Front(FrontPart),
    Dict(DictPart),
    Met(MetPart),
    List(ListPart),
    Docs(DocsPart),
    Terms(TermsPart),
}

/// What a reader of a proof keeps: the field that comes next, and from the fields before it only what matters to it or
/// to later ones.
#[derive(Clone, Copy)]
pub(crate) struct State {
    pub(crate) part: Part,
    /// Whether the algorithm is TRA.
    pub(crate) tra: bool,
    /// How many parts of the run follow the one that the field belongs to.
    pub(crate) left: u32,
    /// The smallest that the next position, document or index may be.
    pub(crate) low: u64,
    /// How many bytes the next term has.
    pub(crate) size: u32,
    /// How many query terms have no slot yet.
    pub(crate) slots: u32,
    /// How many query terms are present, among those that have a slot.
    pub(crate) present: u32,
    /// How many documents are met.
    pub(crate) met: u32,
    /// How many prefixes or terms sections follow this one.
    pub(crate) sections: u32,
    ghost few: { present + slots + pending part < 2 ^ 32 },
}
