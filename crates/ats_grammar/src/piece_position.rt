//! The position of a reader of pieces.

ghost use Rattle.std.specs.Prelude.{◌≡◌, ◌<◌, ◌≤◌, ◌+◌, ◌-◌, ◌*◌, ◌^◌};
ghost use Rattle.ats_grammar.specs.Inner.Pending.{may_be_empty};
ghost use Rattle.ats_grammar.specs.ReaderState.{remaining};
ghost use Rattle.ats_grammar.specs.Table.{head, follow, size_of};
ghost use Rattle.ats_grammar.specs.Inner.Table.{IsWithin};

use crate::reader_state::State;

/// The position of a reader: after whole fields, and perhaps inside the next one.
#[derive(Clone, Copy)]
pub(crate) struct PiecePosition {
    pub(crate) state: State,
    /// How many bytes of the next field were read. They are not all of it.
    pub(crate) came: u32,
    /// The value of these bytes, if the field is a number.
    pub(crate) number: u32,
    ghost inside: { came ≤ size_of (head (remaining state)) - 1 },
    ghost small: { number < 256 ^ came },
}

impl PiecePosition {
    /// Before the field that comes next.
    pub(crate) fn before(state: State) -> PiecePosition
        ensures state { result.state ≡ state }
        ensures none { (result.came ≡ 0) × (result.number ≡ 0) }
    {
        PiecePosition {
            state,
            came: 0,
            number: 0,
        }
    }

    /// Passes the next field. `number` is its value if it is a number.
    pub(crate) fn pass(&mut self, number: u32)
        requires { IsWithin (remaining self.old.state) number }
        ensures part { remaining self.new.state ≡ follow (remaining self.old.state) number }
        ensures smaller { may_be_empty self.new.state.part
            < may_be_empty self.old.state.part + 2 * size_of (head (remaining self.old.state)) }
        ensures none { (self.new.came ≡ 0) × (self.new.number ≡ 0) }
    {
        self.came = 0;
        self.number = 0;
        self.state.advance(number);
    }
}
