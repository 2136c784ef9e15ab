//! The documents of a whole proof.

ghost use Rattle.std.specs.Prelude.{◌≡◌, ◌≢◌, None, Some, IfSome, IfNone};

use crate::digests::counted_digests_4;
use crate::docs::DocsView;
use crate::docs_cursor::DocsCursor;
use crate::view::ProofView;

impl<'a> ProofView<'a> {
    ghost use Rattle.std.specs.Prelude.{length};
    ghost use Rattle.ats_proof.specs.Runs.{shown_docs};
    ghost use Rattle.ats_proof.specs.SeenDocs.{documents_of, whole_leaves_of, ids_of};
    ghost use Rattle.ats_proof.specs.Value.{AreDocuments, present_in};

    // The documents of a proof that shows them.
    fn shown_documents(&self) -> DocsView<'a>
        requires { self.now.docs ≢ None }
        ensures documents { self.now.docs ≡ Some (documents_of result) }
        ensures met { ids_of result ≡ self.now.met }
        ensures whole { whole_leaves_of result ≡ shown_docs self.now.met (documents_of result).leaves }
    {
        let ids = self.bytes.split_at(self.begun.met_at + 4).1;
        let leaves = self.bytes.split_at(self.docs).1;
        let digests = counted_digests_4(self.bytes.split_at(self.ended.doc_digests).1);
        let left = self.begun.met;
        let whole = DocsCursor {
            left,
            ids,
            leaves,
            digests,
        };
        DocsView {
            left,
            ids,
            leaves,
            present: self.begun.present,
            sections: self.bytes.split_at(self.ended.sections).1,
            whole,
        }
    }

    /// The met documents, `None` if the algorithm shows none.
    pub fn docs(&self) -> Option<DocsView<'a>>
        ensures none { IfNone result (self.now.docs ≡ None) }
        ensures documents { IfSome result (λ docs. self.now.docs ≡ Some (documents_of docs)) }
        ensures met { IfSome result (λ docs. ids_of docs ≡ self.now.met) }
        ensures whole { IfSome result (λ docs. whole_leaves_of docs
            ≡ shown_docs self.now.met (documents_of docs).leaves) }
        ensures each { IfSome result
            (λ docs. AreDocuments (length self.now.met) (present_in self.now.slots) (documents_of docs)) }
    {
        if self.tra {
            return Some(self.shown_documents());
        }
        None
    }
}
