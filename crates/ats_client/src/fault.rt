//! Why no rows are returned.

ghost use Rattle.std.specs.Prelude.{◌≡◌};
ghost use Rattle.ats_refusal.specs.declared.proof.Rejection.TheVariants.{Shape, Check};
ghost use Rattle.ats_client.specs.declared.fault.VerifyFault.TheVariants.{Rejected, OutOfMemory};

use crate::memory::OutOfMemory;
use ats_proof::ShapeFault;
use ats_refusal::{Refusal, Rejection};

/// Why no rows were returned.
#[derive(Clone, Copy, Debug, PartialEq, Eq)]
pub enum VerifyFault {
    /// The bytes are not accepted.
    Rejected(Rejection),
    /// Memory ran out. This says nothing of the bytes.
    OutOfMemory,
}

impl From<ShapeFault> for VerifyFault {
    ghost from_gives = { λ shape fault. fault ≡ Rejected (Shape shape) };

    fn from(shape: ShapeFault) -> Self {
        VerifyFault::Rejected(Rejection::Shape(shape))
    }
}

impl From<Refusal> for VerifyFault {
    ghost from_gives = { λ refusal fault. fault ≡ Rejected (Check refusal) };

    fn from(refusal: Refusal) -> Self {
        VerifyFault::Rejected(Rejection::Check(refusal))
    }
}

impl From<ats_bound::OutOfMemory> for VerifyFault {
    ghost from_gives = { λ _ fault. fault ≡ OutOfMemory };

    fn from(_: ats_bound::OutOfMemory) -> Self {
        VerifyFault::OutOfMemory
    }
}

impl From<OutOfMemory> for VerifyFault {
    ghost from_gives = { λ _ fault. fault ≡ OutOfMemory };

    fn from(_: OutOfMemory) -> Self {
        VerifyFault::OutOfMemory
    }
}
