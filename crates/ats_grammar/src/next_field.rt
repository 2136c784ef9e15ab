//! The field that comes next, by the state of a reader.

ghost use Rattle.std.specs.Prelude.{◌≡◌};
ghost use Rattle.ats_grammar.specs.Table.{head};
ghost use Rattle.ats_grammar.specs.Inner.Table.{IsSized};
ghost use Rattle.ats_grammar.specs.Grammar.{proof};
ghost use Rattle.ats_grammar.specs.Inner.Pending.{HasOwnKind};
ghost use Rattle.ats_grammar.specs.ReaderState.{in_front, in_dict, in_met, in_list, in_docs, in_terms, remaining};
ghost use Rattle.ats_grammar.specs.Inner.ReaderState.{IsNext};

use crate::fault::ShapeKind;
use crate::field_kinds::Next;
use crate::reader_state::{
    DictPart, DocsPart, FrontPart, ListPart, MetPart, Part, State, TermsPart,
};

const MAGIC: u32 = 0x4154_5350;

/// The most documents. It is a limit of the format, so the crate names it itself.
pub(crate) const MAX_DOCUMENTS: u32 = 65_536;

impl State {
    /// Before the first field.
    pub(crate) fn start() -> State
        ensures { remaining result ≡ proof }
    {
        State {
            part: Part::Front(FrontPart::Magic),
            tra: false,
            left: 0,
            low: 0,
            size: 0,
            slots: 0,
            present: 0,
            met: 0,
            sections: 0,
        }
    }

    /// The field that comes next.
    pub(crate) fn next(&self) -> Next
        ensures next { result ≡ head (remaining self.now) }
        ensures size { IsSized result }
        ensures kind { HasOwnKind result }
    {
        match self.part {
            Part::Front(part) => self.next_in_front(part),
            Part::Dict(part) => self.next_in_dict(part),
            Part::Met(part) => self.next_in_met(part),
            Part::List(part) => self.next_in_list(part),
            Part::Docs(part) => self.next_in_docs(part),
            Part::Terms(part) => self.next_in_terms(part),
        }
    }

    fn next_in_front(&self, part: FrontPart) -> Next
        ensures { IsNext (in_front part self.now) result }
    {
        match part {
            FrontPart::Magic => Next::number(4, MAGIC.into(), MAGIC, ShapeKind::Magic),
            FrontPart::Version => Next::number(1, 1, 2, ShapeKind::Version),
            FrontPart::Algorithm => Next::number(1, 1, 2, ShapeKind::Algorithm),
            FrontPart::HeaderVersion => Next::number(1, 1, 1, ShapeKind::Version),
            FrontPart::Documents => Next::count(4, 1, MAX_DOCUMENTS),
            FrontPart::DictLeaves => Next::count(4, 2, 16777218),
            FrontPart::DictRoot | FrontPart::DocsRoot | FrontPart::TextsRoot => Next::bytes(32),
            FrontPart::Terms => Next::count(2, 1, 32),
        }
    }

    fn next_in_dict(&self, part: DictPart) -> Next
        ensures { IsNext (in_dict part self.now) result }
    {
        match part {
            DictPart::LeafCount => Next::count(2, 1, 64),
            DictPart::Position => Next::rising(self.low),
            DictPart::Length => Next::count(1, 0, 64),
            DictPart::Term => Next::bytes(self.size),
            DictPart::Frequency => Next::any_4(),
            DictPart::DigestCount => Next::any_2(),
            DictPart::ListRoot | DictPart::Digest => Next::bytes(32),
        }
    }

    fn next_in_met(&self, part: MetPart) -> Next
        ensures { IsNext (in_met part self.now) result }
    {
        match part {
            MetPart::SlotKind => Next::count(1, 0, 1),
            MetPart::SlotIndex => Next::index(self.low),
            MetPart::MetCount => Next::count(4, 0, MAX_DOCUMENTS),
            MetPart::MetId => Next::rising(self.low),
        }
    }

    fn next_in_list(&self, part: ListPart) -> Next
        ensures { IsNext (in_list part self.now) result }
    {
        match part {
            ListPart::EntryCount => Next::count(4, 1, MAX_DOCUMENTS),
            ListPart::MetIndex => Next::any_4(),
            ListPart::Impact | ListPart::DigestCount => Next::any_2(),
            ListPart::Digest => Next::bytes(32),
        }
    }

    fn next_in_docs(&self, part: DocsPart) -> Next
        ensures { IsNext (in_docs part self.now) result }
    {
        match part {
            DocsPart::LeafTerms | DocsPart::Row => Next::any_4(),
            DocsPart::DigestCount => Next::count(4, 0, MAX_DOCUMENTS),
            DocsPart::TermsRoot | DocsPart::Digest => Next::bytes(32),
            DocsPart::RowCount => Next::count(2, 0, 1000),
            DocsPart::End => Next::End,
        }
    }

    fn next_in_terms(&self, part: TermsPart) -> Next
        ensures { IsNext (in_terms part self.now) result }
    {
        match part {
            TermsPart::LeafCount => Next::count(2, 1, 64),
            TermsPart::Position => Next::rising(self.low),
            TermsPart::Length => Next::count(1, 0, 64),
            TermsPart::Term => Next::bytes(self.size),
            TermsPart::Impact | TermsPart::DigestCount => Next::any_2(),
            TermsPart::Digest => Next::bytes(32),
            TermsPart::SlotKind => Next::count(1, 0, 1),
            TermsPart::SlotIndex => Next::index(self.low),
        }
    }
}
