//! Reading a whole proof.

ghost use Rattle.std.specs.Prelude.{◌≡◌, Ok, Err, IfOk, IfErr};
ghost use Rattle.ats_grammar.specs.declared.fault.ShapeFault.{ShapeFault};
ghost use Rattle.ats_grammar.specs.Front.{IsBad, IsSpelling};
ghost use Rattle.ats_grammar.specs.Grammar.{proof_schema};
ghost use Rattle.ats_proof.specs.Reading.{proof_in};
ghost use Rattle.ats_proof.specs.Inner.Told.{HasSpace};
ghost use Rattle.ats_proof.specs.Value.{IsProof};

use crate::bytes::number_1;
use crate::places::{Begun, Ended};
use crate::sizes::lists_size;
use crate::view::ProofView;
use ats_grammar::{ShapeFault, scan};

// Bytes that spell a proof spell the one that is read from them.
fn are_a_proof(bytes: &[u8])
    requires { IsSpelling proof_schema bytes.now }
    ensures proof { IsProof bytes.now (proof_in bytes.now) }
    ensures space { HasSpace bytes.now }
{}

impl<'a> ProofView<'a> {
    ghost use Rattle.ats_proof.specs.Value.{Proof};

    // The view of bytes that spell a proof.
    fn of(bytes: &'a [u8]) -> ProofView<'a>
        requires { IsSpelling proof_schema bytes.now }
        ensures { IsProof bytes.now result }
    {
        are_a_proof(bytes);
        let tra = number_1(bytes.split_at(5).1) == 1;
        let begun = Begun::of(bytes);
        let docs = begun.lists + lists_size(begun.present, bytes.split_at(begun.lists).1);
        let ended = Ended::of(bytes, tra, docs, begun.met, begun.present);
        ProofView {
            bytes,
            tra,
            begun,
            docs,
            ended,
        }
    }

    /// Reads the bytes of a proof from left to right, and returns the first fault if they spell none.
    pub fn read(bytes: &'a [u8]) -> Result<ProofView<'a>, ShapeFault>
        ensures spelled { IfOk result (IsProof bytes.now) }
        ensures accepted { (proof : Proof) → IsProof bytes.now proof → result ≡ Ok proof }
        ensures refused { IfErr result (IsBad proof_schema bytes.now) }
        ensures exact { (fault : ShapeFault) → IsBad proof_schema bytes.now fault → result ≡ Err fault }
    {
        match scan(bytes) {
            Ok(()) => Ok(ProofView::of(bytes)),
            Err(fault) => Err(fault),
        }
    }
}
