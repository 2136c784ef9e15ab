//! What a reader of pieces keeps between them.

ghost use Rattle.std.specs.Prelude.{◌≤◌, ◌^◌};
ghost use Rattle.ats_grammar.specs.FeederPosition.{came_in};

use crate::fault::ShapeFault;
use crate::piece_position::PiecePosition;

#[derive(Clone, Copy)]
pub(crate) enum Place {
    Reading(PiecePosition),
    Refused(ShapeFault),
}

/// Reads a proof whose bytes arrive in pieces, and keeps none of them. It reports a fault as soon as the bytes so far
/// have one that no further bytes can mend.
#[derive(Clone, Copy)]
pub struct Feeder {
    pub(crate) length: u64,
    pub(crate) fed: u64,
    pub(crate) place: Place,
    ghost within: { (fed ≤ length) × (length ≤ 2 ^ 26) },
    ghost inside: { came_in place ≤ fed },
}
