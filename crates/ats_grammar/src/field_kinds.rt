//! The kinds of field that may come next.

ghost use Rattle.std.specs.Prelude.{◌≡◌};
ghost use Rattle.ats_grammar.specs.declared.fault.ShapeKind.TheVariants.{Count, Order};
ghost use Rattle.ats_grammar.specs.declared.field_kinds.Next.TheVariants.{Number, Bytes};

use crate::fault::ShapeKind;

const U16_MAX: u32 = 0xffff;

/// What comes next in the bytes of a proof.
#[derive(Clone, Copy)]
pub(crate) enum Next {
    /// Nothing more.
    End,
    /// A number, high byte first, within bounds.
    Number {
        /// How many bytes it has: 1, 2 or 4.
        size: u32,
        /// The smallest allowed. It may be above every number of this size, as after the largest of a run.
        low: u64,
        /// The largest allowed.
        high: u32,
        /// The fault of a number out of this range.
        kind: ShapeKind,
    },
    /// Bytes of any content.
    Bytes {
        /// How many they are.
        size: u32,
    },
}

impl Next {
    /// A number within bounds.
    pub(crate) fn number(size: u32, low: u64, high: u32, kind: ShapeKind) -> Next
        ensures { result ≡ Number size low high kind }
    {
        Next::Number {
            size,
            low,
            high,
            kind,
        }
    }

    /// A count, a length or the kind of a slot.
    pub(crate) fn count(size: u32, low: u64, high: u32) -> Next
        ensures { result ≡ Number size low high Count }
    {
        Next::number(size, low, high, ShapeKind::Count)
    }

    /// Any number of two bytes.
    pub(crate) fn any_2() -> Next
        ensures { result ≡ Number 2 0 0xffff Count }
    {
        Next::count(2, 0, U16_MAX)
    }

    /// Any number of four bytes.
    pub(crate) fn any_4() -> Next
        ensures { result ≡ Number 4 0 0xffff_ffff Count }
    {
        Next::count(4, 0, u32::MAX)
    }

    /// A position or a document's number.
    pub(crate) fn rising(low: u64) -> Next
        ensures { result ≡ Number 4 low 0xffff_ffff Order }
    {
        Next::number(4, low, u32::MAX, ShapeKind::Order)
    }

    /// The index of a leaf.
    pub(crate) fn index(low: u64) -> Next
        ensures { result ≡ Number 2 low 0xffff Order }
    {
        Next::number(2, low, U16_MAX, ShapeKind::Order)
    }

    /// Bytes of any content.
    pub(crate) fn bytes(size: u32) -> Next
        ensures { result ≡ Bytes size }
    {
        Next::Bytes { size }
    }
}
