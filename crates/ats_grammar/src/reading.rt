//! Reading a proof field by field.

ghost use Rattle.std.specs.Prelude.{◌≡◌, ◌⊎◌, [], length, IfOk, IfErr, IfSome, IfNone};
ghost use Rattle.ats_grammar.specs.Table.{AreBytes, number};
ghost use Rattle.ats_grammar.specs.Inner.Table.{IsSized};
ghost use Rattle.ats_grammar.specs.declared.field_kinds.Next.TheVariants.{End};
ghost use Rattle.ats_grammar.specs.Inner.Reading.{IsTaken, IsRefused};

use crate::fault::ShapeKind;
use crate::field_kinds::Next;
use byteorder::{BigEndian, ByteOrder};

/// A slice holds bytes.
pub fn are_bytes(bytes: &[u8])
    ensures { AreBytes bytes.now }
{}

// The number that these bytes are, high byte first.
fn number_of(bytes: &[u8]) -> u32
    requires { (length bytes.now ≡ 1) ⊎ (length bytes.now ≡ 2) ⊎ (length bytes.now ≡ 4) }
    ensures { result ≡ number bytes.now }
{
    match bytes.len() {
        1 => u32::from(bytes[0]),
        2 => u32::from(BigEndian::read_u16(bytes)),
        4 => BigEndian::read_u32(bytes),
        _ => unreachable!(),
    }
}

/// Takes the next field from the front of the bytes. Returns its number, or 0 if it is none, and the bytes after it; or
/// `None`, if no field comes and no bytes are left.
pub(crate) fn take(next: Next, bytes: &[u8]) -> Result<Option<(u32, &[u8])>, ShapeKind>
    requires { IsSized next }
    ensures taken { IfOk result (λ step. IfSome step (λ x. IsTaken next bytes.now x.0 x.1.now)) }
    ensures done { IfOk result (λ step. IfNone step ((next ≡ End) × (bytes.now ≡ []))) }
    ensures refused { IfErr result (λ kind. IsRefused next bytes.now kind) }
{
    match next {
        Next::End if bytes.is_empty() => Ok(None),
        Next::End => Err(ShapeKind::Trailing),
        Next::Number {
            size,
            low,
            high,
            kind,
        } => {
            if bytes.len() < size as usize {
                return Err(ShapeKind::Cut);
            }
            let (field, after) = bytes.split_at(size as usize);
            let number = number_of(field);
            if u64::from(number) < low || number > high {
                return Err(kind);
            }
            Ok(Some((number, after)))
        }
        Next::Bytes { size } => {
            if bytes.len() < size as usize {
                return Err(ShapeKind::Cut);
            }
            let (_, after) = bytes.split_at(size as usize);
            Ok(Some((0, after)))
        }
    }
}
