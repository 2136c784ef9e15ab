//! One step of a reader of pieces.

ghost use Rattle.std.specs.Prelude.{◌≡◌, ◌⊎◌, ℕ, ◌+◌, ◌≤◌, List, ◌∷◌, ◌++◌, length, IfOk, IfErr, OnOk, OnErr, IfSome, IfNone};
ghost use Rattle.ats_grammar.specs.declared.field_kinds.Next.TheVariants.{Number, Bytes};
ghost use Rattle.ats_grammar.specs.Inner.Pending.{HasOwnKind};
ghost use Rattle.ats_grammar.specs.Table.{head, size_of};
ghost use Rattle.ats_grammar.specs.Inner.Table.{IsSized};
ghost use Rattle.ats_grammar.specs.ReaderState.{remaining};
ghost use Rattle.ats_grammar.specs.PiecePosition.{IsAt};
ghost use Rattle.ats_grammar.specs.Inner.PiecePosition.{IsOn, IsStill, IsWrong};

use crate::fault::ShapeKind;
use crate::field_kinds::Next;
use crate::piece_position::PiecePosition;
use crate::reading::take;

impl Next {
    // How many bytes the field has.
    fn size(self) -> u32
        ensures { result ≡ size_of self }
    {
        match self {
            Next::End => 0,
            Next::Number { size, .. } | Next::Bytes { size } => size,
        }
    }
}

impl PiecePosition {
    // Takes the whole field, if all its bytes are there and none was read before.
    fn step_over<'a>(&mut self, next: Next, rest: &'a [u8]) -> Result<Option<&'a [u8]>, ShapeKind>
        requires none { self.old.came ≡ 0 }
        requires next { next ≡ head (remaining self.old.state) }
        requires sized { IsSized next }
        requires own { HasOwnKind next }
        requires all { size_of next ≤ length rest.now }
        ensures on { IfOk result (λ step. IfSome step (λ after. IsOn self.old rest.now self.new after.now)) }
        ensures wait { IfOk result (λ step. IfNone step ((self.new ≡ self.old) × IsStill self.old rest.now)) }
        ensures wrong { IfErr result (λ kind. (bytes : List ℕ) → IsAt bytes self.old rest.now
            → IsWrong bytes kind (self.old.came + length rest.now)) }
        ensures same { OnErr result (self.new ≡ self.old) }
    {
        match take(next, rest) {
            Ok(Some((number, after))) => {
                self.pass(number);
                Ok(Some(after))
            }
            Ok(None) => Ok(None),
            Err(kind) => Err(kind),
        }
    }

    // Reads one more byte of a number.
    fn step_in_number(
        &mut self,
        size: u32,
        range: (u64, u32),
        kind: ShapeKind,
        byte: u8,
    ) -> Result<(), ShapeKind>
        requires next { head (remaining self.old.state) ≡ Number size range.0 range.1 kind }
        requires sized { (size ≡ 1) ⊎ (size ≡ 2) ⊎ (size ≡ 4) }
        requires own { HasOwnKind (Number size range.0 range.1 kind) }
        ensures on { OnOk result ((rest : List ℕ) → IsOn self.old (byte ∷ rest) self.new rest) }
        ensures wrong { IfErr result (λ kind. (bytes rest : List ℕ) → IsAt bytes self.old (byte ∷ rest)
            → IsWrong bytes kind (self.old.came + 1 + length rest)) }
        ensures same { OnErr result (self.new ≡ self.old) }
    {
        let number = self.number * 256 + u32::from(byte);
        let came = self.came + 1;
        if came < size {
            self.came = came;
            self.number = number;
            return Ok(());
        }
        if u64::from(number) < range.0 || number > range.1 {
            return Err(kind);
        }
        self.pass(number);
        Ok(())
    }

    // Passes `many` bytes of a field of any content.
    fn step_in_bytes(&mut self, size: u32, many: u32)
        requires next { head (remaining self.old.state) ≡ Bytes size }
        requires some { 1 ≤ many }
        requires within { self.old.came + many ≤ size }
        ensures { (part rest : List ℕ) → length part ≡ many → IsOn self.old (part ++ rest) self.new rest }
    {
        let came = self.came + many;
        if came < size {
            self.came = came;
            self.number = 0;
            return;
        }
        self.pass(0);
    }

    /// Moves over a field, or further into one. Returns `None` if there is nothing more to read.
    pub(crate) fn step<'a>(&mut self, rest: &'a [u8]) -> Result<Option<&'a [u8]>, ShapeKind>
        ensures on { IfOk result (λ step. IfSome step (λ after. IsOn self.old rest.now self.new after.now)) }
        ensures wait { IfOk result (λ step. IfNone step ((self.new ≡ self.old) × IsStill self.old rest.now)) }
        ensures wrong { IfErr result (λ kind. (bytes : List ℕ) → IsAt bytes self.old rest.now
            → IsWrong bytes kind (self.old.came + length rest.now)) }
        ensures same { OnErr result (self.new ≡ self.old) }
    {
        // Inside a field more bytes are needed, whatever it is.
        if self.came > 0 && rest.is_empty() {
            return Ok(None);
        }
        let next = self.state.next();
        if self.came == 0 && rest.len() >= next.size() as usize {
            return self.step_over(next, rest);
        }
        let Some((byte, following)) = rest.split_first() else {
            return Ok(None);
        };
        match next {
            Next::End => unreachable!(),
            Next::Number {
                size,
                low,
                high,
                kind,
            } => match self.step_in_number(size, (low, high), kind, *byte) {
                Ok(()) => Ok(Some(following)),
                Err(kind) => Err(kind),
            },
            Next::Bytes { size } => {
                let many = ((size - self.came) as usize).min(rest.len());
                let (_, after) = rest.split_at(many);
                self.step_in_bytes(size, many as u32);
                Ok(Some(after))
            }
        }
    }
}
