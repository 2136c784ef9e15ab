//! The met documents and the answer among them.

ghost use Rattle.std.specs.Prelude.{◌≡◌, ◌+◌, ◌≤◌, ◌*◌, ◌^◌, ℕ, length, map, IfOk, OnOk};
ghost use Rattle.ats_bound.specs.declared.bracket.Bracket.{Bracket as Bounds};
ghost use Rattle.ats_proof.specs.Parts.{counted};
ghost use Rattle.ats_proof.specs.Value.{id_fields};
ghost use Rattle.ats_prover.specs.Inner.Writing.{put};

use crate::fault::OutOfMemory;
use ats_bound::Bracket;
use ats_proof::ProofWriter;
use std::alloc::Global;

/// The documents of brackets.
pub(crate) fn documents(alloc: Global, brackets: &[Bracket]) -> Result<Vec<u32>, OutOfMemory>
    ensures { IfOk result (λ documents. documents.items ≡ map (λ (b : Bounds). b.doc) brackets.now) }
{
    let mut documents = Vec::with_capacity(alloc, brackets.len())?;
    for bracket in brackets {
        documents.push(bracket.doc)?;
    }
    Ok(documents)
}

/// Writes the number of the met documents, then their ids.
pub(crate) fn write_met(writer: &mut ProofWriter, met: &[u32]) -> Result<(), OutOfMemory>
    requires few { length met.now ≤ 65536 }
    requires space { writer.old.asked ≤ 2 ^ 60 }
    ensures fields { OnOk result (writer.new ≡ put writer.old (counted 4 id_fields met.now)) }
    ensures size { OnOk result (writer.new.asked ≤ writer.old.asked + 2 ^ 19) }
{
    writer.count32(met.len() as u32)?;
    for id in met {
        writer.met(*id)?;
    }
    Ok(())
}

/// Writes the number of rows, then the rows of the answer.
pub(crate) fn write_answer(writer: &mut ProofWriter, picks: &[u32]) -> Result<(), OutOfMemory>
    requires few { length picks.now ≤ 1000 }
    requires space { writer.old.asked ≤ 2 ^ 60 }
    ensures fields { OnOk result (writer.new ≡ put writer.old (counted 2 id_fields picks.now)) }
    ensures size { OnOk result (writer.new.asked ≤ writer.old.asked + 2 ^ 12) }
{
    writer.count16(picks.len() as u16)?;
    for pick in picks {
        writer.answer(*pick)?;
    }
    Ok(())
}
