//! Why no audit begins.

ghost use Rattle.std.specs.Prelude.{◌≡◌};
ghost use Rattle.ats_catalog_audit.specs.declared.fault.AuditFault.TheVariants.{BadShape};

use ats_grammar::ShapeFault;

/// Why an audit of bytes does not begin.
#[derive(Clone, Copy, Debug, PartialEq, Eq)]
pub enum AuditFault {
    /// The bytes spell no proof of a catalog's answer.
    BadShape(ShapeFault),
    /// Memory ran out. This says nothing of the bytes.
    OutOfMemory,
}

impl From<ShapeFault> for AuditFault {
    ghost from_gives = { λ shape fault. fault ≡ BadShape shape };

    fn from(shape: ShapeFault) -> Self {
        AuditFault::BadShape(shape)
    }
}
