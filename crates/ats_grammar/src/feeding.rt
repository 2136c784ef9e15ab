//! Reads a proof whose bytes arrive in pieces.

ghost use Rattle.std.specs.Prelude.{◌≡◌, ◌≢◌, ℕ, ◌+◌, ◌<◌, ◌≤◌, ◌^◌, List, [], ◌++◌, length, IfOk, IfErr, OnOk};
ghost use Rattle.ats_grammar.specs.declared.fault.ShapeFault.{ShapeFault};
ghost use Rattle.ats_grammar.specs.declared.fault.ShapeKind.TheVariants.{Cut, Long};
ghost use Rattle.ats_grammar.specs.Front.{IsSpelling, IsBad};
ghost use Rattle.ats_grammar.specs.Grammar.{proof_schema};
ghost use Rattle.ats_grammar.specs.Table.{head};
ghost use Rattle.ats_grammar.specs.ReaderState.{remaining};
ghost use Rattle.ats_grammar.specs.PiecePosition.{IsAt, IsWaiting};
ghost use Rattle.ats_grammar.specs.Inner.PiecePosition.{IsWrong};
ghost use Rattle.ats_grammar.specs.Feeding.{StandsFor};

use crate::fault::{ShapeFault, ShapeKind};
use crate::feeder::{Feeder, Place};
use crate::field_kinds::Next;
use crate::piece_position::PiecePosition;
use crate::reader_state::State;

/// The most bytes that a proof may have.
pub const MAX_PROOF: u64 = 1 << 26;

// Why reading stopped, and how many bytes follow the last whole field.
#[derive(Clone, Copy)]
struct Wrong {
    kind: ShapeKind,
    left: u64,
}

impl PiecePosition {
    // Reads a piece to its end.
    fn read_on(&mut self, piece: &[u8]) -> Result<(), Wrong>
        requires few { length piece.now ≤ 2 ^ 26 }
        ensures on { OnOk result ((bytes : List ℕ) → IsAt bytes self.old piece.now → IsAt bytes self.new []) }
        ensures wait { OnOk result (IsWaiting (head (remaining self.new.state)) self.new.came) }
        ensures wrong { IfErr result (λ wrong. (bytes : List ℕ) → IsAt bytes self.old piece.now
            → IsWrong bytes wrong.kind wrong.left) }
        ensures inside { OnOk result (self.new.came ≤ self.old.came + length piece.now) }
        ensures few { IfErr result (λ wrong. wrong.left ≤ self.old.came + length piece.now) }
    {
        let mut rest = piece;
        'steps: loop {
            match self.step(rest) {
                Ok(Some(after)) => rest = after,
                Ok(None) => return Ok(()),
                Err(kind) => {
                    let stand = *self;
                    let left = u64::from(stand.came) + rest.len() as u64;
                    return Err(Wrong { kind, left });
                }
            }
        }
    }
}

impl Feeder {
    /// A reader of a proof of `length` bytes.
    ///
    /// # Errors
    /// A proof of more than 2^26 bytes is too long.
    pub fn new(length: u64) -> Result<Feeder, ShapeFault>
        ensures few { IfOk result (λ feeder. (length ≤ 2 ^ 26) × (feeder.length ≡ length)) }
        ensures none { IfOk result (λ feeder. (feeder.fed ≡ 0) × StandsFor feeder []) }
        ensures long { IfErr result (λ fault. (2 ^ 26 < length) × (fault ≡ record { at = 2 ^ 26; kind = Long })) }
    {
        if length > MAX_PROOF {
            return Err(ShapeFault {
                at: MAX_PROOF,
                kind: ShapeKind::Long,
            });
        }
        Ok(Feeder {
            length,
            fed: 0,
            place: Place::Reading(PiecePosition::before(State::start())),
        })
    }

    /// Reads the next piece.
    ///
    /// # Errors
    /// The first fault of the bytes so far, if no further bytes can mend it. Every later call returns it too.
    pub fn feed(&mut self, piece: &[u8]) -> Result<(), ShapeFault>
        requires { self.old.fed + length piece.now ≤ self.old.length }
        ensures more { (self.new.length ≡ self.old.length) × (self.new.fed ≡ self.old.fed + length piece.now) }
        ensures stands { (bytes : List ℕ) → StandsFor self.old bytes → StandsFor self.new (bytes ++ piece.now) }
        ensures refused { IfErr result (λ fault. (bytes : List ℕ) → StandsFor self.old bytes
            → IsBad proof_schema (bytes ++ piece.now) fault × (fault.kind ≢ Cut)) }
        ensures fine { OnOk result ((bytes : List ℕ) (fault : ShapeFault) → StandsFor self.old bytes
            → IsBad proof_schema (bytes ++ piece.now) fault → fault.kind ≡ Cut) }
    {
        let fed = self.fed + piece.len() as u64;
        self.fed = fed;
        match &mut self.place {
            Place::Refused(fault) => Err(*fault),
            Place::Reading(stand) => match stand.read_on(piece) {
                Ok(()) => Ok(()),
                Err(wrong) => {
                    let fault = ShapeFault {
                        at: fed - wrong.left,
                        kind: wrong.kind,
                    };
                    self.place = Place::Refused(fault);
                    Err(fault)
                }
            },
        }
    }

    /// Decides on the bytes after the last piece.
    ///
    /// # Errors
    /// The first fault of the bytes.
    pub fn finish(&self) -> Result<(), ShapeFault>
        ensures spelled { OnOk result ((bytes : List ℕ) → StandsFor self.now bytes → IsSpelling proof_schema bytes) }
        ensures refused { IfErr result (λ fault. (bytes : List ℕ) → StandsFor self.now bytes
            → IsBad proof_schema bytes fault) }
    {
        let stand = match self.place {
            Place::Refused(fault) => return Err(fault),
            Place::Reading(stand) => stand,
        };
        match stand.state.next() {
            Next::End => Ok(()),
            _ => Err(ShapeFault {
                at: self.fed - u64::from(stand.came),
                kind: ShapeKind::Cut,
            }),
        }
    }
}
