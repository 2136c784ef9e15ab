//! The state of a reader before a run of parts, which may be empty.

ghost use Rattle.std.specs.Prelude.{◌+◌, ◌<◌, ◌^◌};
ghost use Rattle.ats_grammar.specs.Grammar.{dict_leaves, dict_digests, digests, slots, met_ids, prefixes, entries, list_digests, documents, doc_leaves, doc_digests, term_sections, term_leaves, term_digests, doc_slots, rows};
ghost use Rattle.ats_grammar.specs.ReaderState.{lists_left, sections_left, docs_left};
ghost use Rattle.ats_grammar.specs.Inner.ReaderState.{IsBefore};

use crate::reader_state::{DictPart, DocsPart, ListPart, MetPart, Part, State, TermsPart};

impl State {
    pub(crate) fn at_rows(&mut self, n: u32)
        ensures { IsBefore self.new (rows n) }
    {
        if n == 0 {
            self.part = Part::Docs(DocsPart::End);
            return;
        }
        self.part = Part::Docs(DocsPart::Row);
        self.left = n - 1;
    }

    pub(crate) fn at_term_sections(&mut self, n: u32)
        ensures { IsBefore self.new (term_sections n self.old.present) }
    {
        if n == 0 {
            self.part = Part::Docs(DocsPart::RowCount);
            return;
        }
        self.part = Part::Terms(TermsPart::LeafCount);
        self.sections = n - 1;
    }

    pub(crate) fn at_doc_slots(&mut self, n: u32, low: u64)
        ensures { IsBefore self.new (doc_slots n low (sections_left self.old)) }
    {
        if n == 0 {
            return self.at_term_sections(self.sections);
        }
        self.part = Part::Terms(TermsPart::SlotKind);
        self.left = n - 1;
        self.low = low;
    }

    pub(crate) fn at_term_digests(&mut self, n: u32)
        ensures { IsBefore self.new (digests n (doc_slots self.old.present 0 (sections_left self.old))) }
    {
        if n == 0 {
            return self.at_doc_slots(self.present, 0);
        }
        self.part = Part::Terms(TermsPart::Digest);
        self.left = n - 1;
    }

    pub(crate) fn at_term_leaves(&mut self, n: u32, low: u64)
        ensures { IsBefore self.new (term_leaves n low (term_digests self.old.present (sections_left self.old))) }
    {
        if n == 0 {
            self.part = Part::Terms(TermsPart::DigestCount);
            return;
        }
        self.part = Part::Terms(TermsPart::Position);
        self.left = n - 1;
        self.low = low;
    }

    pub(crate) fn at_docs_digests(&mut self, n: u32)
        ensures { IsBefore self.new (digests n (term_sections self.old.met self.old.present)) }
    {
        if n == 0 {
            return self.at_term_sections(self.met);
        }
        self.part = Part::Docs(DocsPart::Digest);
        self.left = n - 1;
    }

    pub(crate) fn at_doc_leaves(&mut self, n: u32)
        ensures { IsBefore self.new (doc_leaves n (docs_left self.old)) }
    {
        if n == 0 {
            self.part = Part::Docs(DocsPart::DigestCount);
            return;
        }
        self.part = Part::Docs(DocsPart::LeafTerms);
        self.left = n - 1;
    }

    pub(crate) fn at_documents(&mut self)
        ensures { IsBefore self.new (documents self.old.tra self.old.met self.old.present) }
    {
        if self.tra {
            return self.at_doc_leaves(self.met);
        }
        self.part = Part::Docs(DocsPart::RowCount);
    }

    pub(crate) fn at_prefixes(&mut self, n: u32)
        ensures { IsBefore self.new (prefixes n (documents self.old.tra self.old.met self.old.present)) }
    {
        if n == 0 {
            return self.at_documents();
        }
        self.part = Part::List(ListPart::EntryCount);
        self.sections = n - 1;
    }

    pub(crate) fn at_list_digests(&mut self, n: u32)
        ensures { IsBefore self.new (digests n (lists_left self.old)) }
    {
        if n == 0 {
            return self.at_prefixes(self.sections);
        }
        self.part = Part::List(ListPart::Digest);
        self.left = n - 1;
    }

    pub(crate) fn at_entries(&mut self, n: u32)
        ensures { IsBefore self.new (entries n (list_digests (lists_left self.old))) }
    {
        if n == 0 {
            self.part = Part::List(ListPart::DigestCount);
            return;
        }
        self.part = Part::List(ListPart::MetIndex);
        self.left = n - 1;
    }

    pub(crate) fn at_met_ids(&mut self, n: u32, low: u64)
        ensures { IsBefore self.new (met_ids n low (prefixes self.old.present (documents self.old.tra self.old.met self.old.present))) }
    {
        if n == 0 {
            return self.at_prefixes(self.present);
        }
        self.part = Part::Met(MetPart::MetId);
        self.left = n - 1;
        self.low = low;
    }

    pub(crate) fn at_slots(&mut self, n: u32, low: u64)
        requires { self.old.present + n < 2 ^ 32 }
        ensures { IsBefore self.new (slots self.old.tra n low self.old.present) }
    {
        if n == 0 {
            self.part = Part::Met(MetPart::MetCount);
            self.slots = 0;
            return;
        }
        self.part = Part::Met(MetPart::SlotKind);
        self.slots = n - 1;
        self.low = low;
    }

    pub(crate) fn at_dict_digests(&mut self, n: u32)
        ensures { IsBefore self.new (digests n (slots self.old.tra self.old.slots 0 0)) }
    {
        if n == 0 {
            self.present = 0;
            return self.at_slots(self.slots, 0);
        }
        self.part = Part::Dict(DictPart::Digest);
        self.left = n - 1;
    }

    pub(crate) fn at_dict_leaves(&mut self, n: u32, low: u64)
        ensures { IsBefore self.new (dict_leaves n low (dict_digests self.old.tra self.old.slots)) }
    {
        if n == 0 {
            self.part = Part::Dict(DictPart::DigestCount);
            return;
        }
        self.part = Part::Dict(DictPart::Position);
        self.left = n - 1;
        self.low = low;
    }
}
