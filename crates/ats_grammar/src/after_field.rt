//! The state of a reader after the next field.

ghost use Rattle.std.specs.Prelude.{◌≡◌};
ghost use Rattle.ats_grammar.specs.declared.reader_state.Part.TheVariants as parts;
ghost use Rattle.ats_grammar.specs.Pending.{pending};
ghost use Rattle.ats_grammar.specs.Inner.Table.{IsWithin};
ghost use Rattle.ats_grammar.specs.ReaderState.{in_front, in_dict, in_met, in_list, in_docs, in_terms, remaining_in, remaining};
ghost use Rattle.ats_grammar.specs.Inner.ReaderState.{IsPast};

use crate::reader_state::{
    DictPart, DocsPart, FrontPart, ListPart, MetPart, Part, State, TermsPart,
};

impl State {
    // Moves to another field that finds no term present. The numbers stay.
    fn before(&mut self, part: Part)
        requires { pending part ≡ 0 }
        ensures remaining { remaining self.new ≡ remaining_in part self.old }
        ensures part { self.new.part ≡ part }
    {
        self.part = part;
    }

    /// Moves past the next field. `number` is its value if it is a number.
    pub(crate) fn advance(&mut self, number: u32)
        requires { IsWithin (remaining self.old) number }
        ensures { IsPast self.old self.new (remaining self.old) number }
    {
        match self.part {
            Part::Front(part) => self.advance_in_front(part, number),
            Part::Dict(part) => self.advance_in_dict(part, number),
            Part::Met(part) => self.advance_in_met(part, number),
            Part::List(part) => self.advance_in_list(part, number),
            Part::Docs(part) => self.advance_in_docs(part, number),
            Part::Terms(part) => self.advance_in_terms(part, number),
        }
    }

    fn advance_in_front(&mut self, part: FrontPart, number: u32)
        requires part { self.old.part ≡ parts.Front part }
        ensures { IsPast self.old self.new (in_front part self.old) number }
    {
        match part {
            FrontPart::Magic => self.before(Part::Front(FrontPart::Version)),
            FrontPart::Version => self.before(Part::Front(FrontPart::Algorithm)),
            FrontPart::Algorithm => {
                self.tra = number == 1;
                self.before(Part::Front(FrontPart::HeaderVersion))
            }
            FrontPart::HeaderVersion => self.before(Part::Front(FrontPart::Documents)),
            FrontPart::Documents => self.before(Part::Front(FrontPart::DictLeaves)),
            FrontPart::DictLeaves => self.before(Part::Front(FrontPart::DictRoot)),
            FrontPart::DictRoot => self.before(Part::Front(FrontPart::DocsRoot)),
            FrontPart::DocsRoot => self.before(Part::Front(FrontPart::TextsRoot)),
            FrontPart::TextsRoot => self.before(Part::Front(FrontPart::Terms)),
            FrontPart::Terms => {
                self.slots = number;
                self.present = 0;
                self.before(Part::Dict(DictPart::LeafCount))
            }
        }
    }

    fn advance_in_dict(&mut self, part: DictPart, number: u32)
        requires part { self.old.part ≡ parts.Dict part }
        ensures { IsPast self.old self.new (in_dict part self.old) number }
    {
        match part {
            DictPart::LeafCount => self.at_dict_leaves(number, 0),
            DictPart::Position => {
                self.low = u64::from(number) + 1;
                self.before(Part::Dict(DictPart::Length))
            }
            DictPart::Length => {
                self.size = number;
                self.before(Part::Dict(DictPart::Term))
            }
            DictPart::Term => self.before(Part::Dict(DictPart::Frequency)),
            DictPart::Frequency => self.before(Part::Dict(DictPart::ListRoot)),
            DictPart::ListRoot => self.at_dict_leaves(self.left, self.low),
            DictPart::DigestCount => self.at_dict_digests(number),
            DictPart::Digest => self.at_dict_digests(self.left),
        }
    }

    fn advance_in_met(&mut self, part: MetPart, number: u32)
        requires part { self.old.part ≡ parts.Met part }
        requires range { IsWithin (in_met part self.old) number }
        ensures { IsPast self.old self.new (in_met part self.old) number }
    {
        match part {
            MetPart::SlotKind => {
                self.present += number;
                self.part = Part::Met(MetPart::SlotIndex);
            }
            MetPart::SlotIndex => self.at_slots(self.slots, number.into()),
            MetPart::MetCount => {
                self.met = number;
                self.at_met_ids(number, 0)
            }
            MetPart::MetId => self.at_met_ids(self.left, u64::from(number) + 1),
        }
    }

    fn advance_in_list(&mut self, part: ListPart, number: u32)
        requires part { self.old.part ≡ parts.List part }
        ensures { IsPast self.old self.new (in_list part self.old) number }
    {
        match part {
            ListPart::EntryCount => self.at_entries(number),
            ListPart::MetIndex => self.before(Part::List(ListPart::Impact)),
            ListPart::Impact => self.at_entries(self.left),
            ListPart::DigestCount => self.at_list_digests(number),
            ListPart::Digest => self.at_list_digests(self.left),
        }
    }

    fn advance_in_docs(&mut self, part: DocsPart, number: u32)
        requires part { self.old.part ≡ parts.Docs part }
        requires range { IsWithin (in_docs part self.old) number }
        ensures { IsPast self.old self.new (in_docs part self.old) number }
    {
        match part {
            DocsPart::LeafTerms => self.before(Part::Docs(DocsPart::TermsRoot)),
            DocsPart::TermsRoot => self.at_doc_leaves(self.left),
            DocsPart::DigestCount => self.at_docs_digests(number),
            DocsPart::Digest => self.at_docs_digests(self.left),
            DocsPart::RowCount => self.at_rows(number),
            DocsPart::Row => self.at_rows(self.left),
            DocsPart::End => {}
        }
    }

    fn advance_in_terms(&mut self, part: TermsPart, number: u32)
        requires part { self.old.part ≡ parts.Terms part }
        ensures { IsPast self.old self.new (in_terms part self.old) number }
    {
        match part {
            TermsPart::LeafCount => self.at_term_leaves(number, 0),
            TermsPart::Position => {
                self.low = u64::from(number) + 1;
                self.before(Part::Terms(TermsPart::Length))
            }
            TermsPart::Length => {
                self.size = number;
                self.before(Part::Terms(TermsPart::Term))
            }
            TermsPart::Term => self.before(Part::Terms(TermsPart::Impact)),
            TermsPart::Impact => self.at_term_leaves(self.left, self.low),
            TermsPart::DigestCount => self.at_term_digests(number),
            TermsPart::Digest => self.at_term_digests(self.left),
            TermsPart::SlotKind => self.before(Part::Terms(TermsPart::SlotIndex)),
            TermsPart::SlotIndex => self.at_doc_slots(self.left, number.into()),
        }
    }
}
