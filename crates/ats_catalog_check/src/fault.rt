//! Why no rows are returned.

ghost use Rattle.std.specs.Prelude.{◌≡◌};
ghost use Rattle.ats_catalog_check.specs.declared.fault.CatalogFault.TheVariants.{Shape, Refused, OutOfMemory};

use ats_grammar::ShapeFault;
use ats_refusal::CatalogRefusal;

/// Why no rows were returned.
#[derive(Clone, Copy, Debug, PartialEq, Eq)]
pub enum CatalogFault {
    /// The bytes spell no proof of a catalog's answer.
    Shape(ShapeFault),
    /// What they show breaks this rule first.
    Refused(CatalogRefusal),
    /// Memory ran out. This says nothing of the bytes.
    OutOfMemory,
}

impl From<ShapeFault> for CatalogFault {
    ghost from_gives = { λ shape fault. fault ≡ Shape shape };

    fn from(shape: ShapeFault) -> Self {
        CatalogFault::Shape(shape)
    }
}

impl From<CatalogRefusal> for CatalogFault {
    ghost from_gives = { λ refusal fault. fault ≡ Refused refusal };

    fn from(refusal: CatalogRefusal) -> Self {
        CatalogFault::Refused(refusal)
    }
}

impl From<ats_bound::OutOfMemory> for CatalogFault {
    ghost from_gives = { λ _ fault. fault ≡ OutOfMemory };

    fn from(_: ats_bound::OutOfMemory) -> Self {
        CatalogFault::OutOfMemory
    }
}
