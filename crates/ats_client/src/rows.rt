//! Whether the rows name met documents, each once.

ghost use Rattle.std.specs.Prelude.{◌≡◌, ◌+◌, ◌*◌, ◌<◌, ◌≤◌, ◌^◌, List, [], length, take, OnOk, IfErr};
ghost use Rattle.ats_bound.specs.Cut.{ShownLane};
ghost use Rattle.ats_bound.specs.Schedule.{Bounding};
ghost use Rattle.ats_client.specs.Indexes.{AreNames};
ghost use Rattle.ats_client.specs.Groups.{AreRowsRight, IsRowsFault};
ghost use Rattle.ats_client.specs.Marked.{AreMarks, AreNoted};

use ats_bound::{Mark, Work};
use ats_hash::Steps;
use ats_proof::ProofView;
use ats_refusal::Refusal;

// Reads a row, after the earlier ones, and notes it in the mark of its document.
fn read_row(
    proof: &ProofView<'_>,
    row: u32,
    work: &mut Work,
    steps: &mut Steps,
) -> Result<(), Refusal>
    requires within { row < length proof.now.answer }
    requires size { length work.old.marks ≡ length proof.now.met }
    requires before { AreNames (length proof.now.met) (take row proof.now.answer) }
    requires noted { AreNoted (take row proof.now.answer) work.old.marks }
    requires count { steps.old ≤ 2 ^ 63 }
    ensures names { OnOk result (AreNames (length proof.now.met) (take (row + 1) proof.now.answer)) }
    ensures noted { OnOk result (AreNoted (take (row + 1) proof.now.answer) work.new.marks) }
    ensures fault { IfErr result (λ refusal. IsRowsFault proof.now.met proof.now.answer refusal) }
    ensures size { length work.new.marks ≡ length work.old.marks }
    ensures marks { (bounds : Bounding) (lanes : List ShownLane)
        → AreMarks bounds lanes proof.now.met work.old.marks → AreMarks bounds lanes proof.now.met work.new.marks }
    ensures room { work.new.room ≡ work.old.room }
    ensures least { steps.old ≤ steps.new }
    ensures most { steps.new ≤ steps.old + 3 }
{
    let index = proof.answer(row, steps);
    if index >= proof.met() {
        return Err(Refusal::AnswerOut { row });
    }
    let mark = work.get(index, steps);
    if mark.row {
        return Err(Refusal::AnswerRepeated { row });
    }
    work.put(index, Mark { row: true, ..mark }, steps);
    Ok(())
}

/// Whether the rows name met documents, each once. Each row is read once, up to the first that fails, and
/// noted in the mark of its document.
pub(crate) fn rows(proof: &ProofView<'_>, work: &mut Work, steps: &mut Steps) -> Result<(), Refusal>
    requires size { length work.old.marks ≡ length proof.now.met }
    requires fresh { AreNoted [] work.old.marks }
    requires count { steps.old ≤ 2 ^ 62 + 2 ^ 56 }
    ensures right { OnOk result (AreRowsRight proof.now.met proof.now.answer) }
    ensures noted { OnOk result (AreNoted proof.now.answer work.new.marks) }
    ensures fault { IfErr result (λ refusal. IsRowsFault proof.now.met proof.now.answer refusal) }
    ensures size { length work.new.marks ≡ length work.old.marks }
    ensures marks { (bounds : Bounding) (lanes : List ShownLane)
        → AreMarks bounds lanes proof.now.met work.old.marks → AreMarks bounds lanes proof.now.met work.new.marks }
    ensures room { work.new.room ≡ work.old.room }
    ensures least { steps.old ≤ steps.new }
    ensures most { steps.new ≤ steps.old + 3 * length proof.now.answer }
    ensures bound { steps.new ≤ steps.old + 2 ^ 34 }
{
    for row in 0..proof.answers() {
        read_row(proof, row, work, steps)?;
    }
    Ok(())
}
