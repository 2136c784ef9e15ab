//! Reading the bytes of any schema, field by field.

ghost use Rattle.std.specs.Prelude.{◌≡◌, ◌≢◌, ◌⊎◌, ℕ, ◌+◌, ◌≤◌, List, [], ◌∷◌, ◌++◌, length, IfOk, IfErr, OnOk, OnErr};
ghost use Rattle.ats_grammar.specs.declared.field_kinds.Next.TheVariants as comes;
ghost use Rattle.ats_grammar.specs.Table.{Table, Schema, End, Number, Bytes, spelled};
ghost use Rattle.ats_grammar.specs.Inner.Table.{IsSized};
ghost use Rattle.ats_grammar.specs.Grammar.{digests, header};
ghost use Rattle.ats_grammar.specs.Front.{Spells, IsLong};
ghost use Rattle.ats_grammar.specs.Inner.Reading.{IsTaken, IsRefused};

use crate::fault::{ShapeFault, ShapeKind};
use crate::field_kinds::Next;
use crate::next_field::MAX_DOCUMENTS;
use crate::reading::{are_bytes, take};

/// The bytes of a header.
const HEADER_BYTES: usize = 105;

/// Reads bytes that are all there, from left to right, and lends them. Which field comes next is the caller's to say.
#[derive(Clone, Copy)]
pub struct Reader<'a> {
    /// How many bytes there were before the first call.
    pub(crate) total: u64,
    /// The bytes that are left.
    pub(crate) rest: &'a [u8],
    ghost within: { length rest.now ≤ total },
}

impl<'a> Reader<'a> {
    ghost use Rattle.ats_grammar.specs.Position.{StandsBefore, Passes, HasFault, AreDigests, HeaderValue, header_fields, IsHeader};

    /// A reader before the first field.
    ///
    /// # Errors
    /// More bytes than `limit` are too many.
    pub fn new(bytes: &'a [u8], limit: u64) -> Result<Reader<'a>, ShapeFault>
        ensures stands { IfOk result (λ reader. (schema : Schema) → schema.limit ≡ limit
            → StandsBefore schema bytes.now [] reader schema.table) }
        ensures long { IfErr result (λ fault. (schema : Schema) → schema.limit ≡ limit
            → IsLong schema bytes.now fault) }
    {
        let total = bytes.len() as u64;
        if total > limit {
            return Err(ShapeFault {
                at: limit,
                kind: ShapeKind::Long,
            });
        }
        Ok(Reader { total, rest: bytes })
    }

    // The fault of the next field.
    fn fault(&self, kind: ShapeKind) -> ShapeFault
        ensures at { result.at + length self.now.rest.now ≡ self.now.total }
        ensures kind { result.kind ≡ kind }
    {
        ShapeFault {
            at: self.total - self.rest.len() as u64,
            kind,
        }
    }

    // Passes the next field. Returns its number, or 0 if it is none.
    fn pass(&mut self, next: Next) -> Result<u32, ShapeFault>
        requires sized { IsSized next }
        requires some { next ≢ comes.End }
        ensures taken { IfOk result (λ n. IsTaken next self.old.rest.now n self.new.rest.now) }
        ensures total { self.new.total ≡ self.old.total }
        ensures refused { IfErr result (λ fault. IsRefused next self.old.rest.now fault.kind
            × (fault.at + length self.old.rest.now ≡ self.old.total)) }
        ensures same { OnErr result (self.new ≡ self.old) }
    {
        match take(next, self.rest) {
            Ok(Some((number, after))) => {
                self.rest = after;
                Ok(number)
            }
            Ok(None) => unreachable!(),
            Err(kind) => Err(self.fault(kind)),
        }
    }

    /// Reads a number of `size` bytes (1, 2 or 4), high byte first, from `low` to `high`. Outside that range its fault is
    /// of this kind.
    ///
    /// # Errors
    /// The fault of the field. The reader is still before it.
    pub fn number(
        &mut self,
        size: u32,
        low: u64,
        high: u32,
        kind: ShapeKind,
    ) -> Result<u32, ShapeFault>
        requires { (size ≡ 1) ⊎ (size ≡ 2) ⊎ (size ≡ 4) }
        ensures read { IfOk result (λ n. (rest : ℕ → Table)
            → Passes self.old self.new (Number size low high kind rest) (spelled size n ∷ []) (rest n)) }
        ensures range { IfOk result (λ n. (low ≤ n) × (n ≤ high)) }
        ensures parts { IfOk result (λ n. self.old.rest.now ≡ spelled size n ++ self.new.rest.now) }
        ensures refused { IfErr result (λ fault. (rest : ℕ → Table)
            → HasFault self.old (Number size low high kind rest) fault) }
        ensures same { OnErr result (self.new ≡ self.old) }
    {
        are_bytes(self.rest);
        self.pass(Next::number(size, low, high, kind))
    }

    /// Lends the next `size` bytes, whatever they are.
    ///
    /// # Errors
    /// `Cut`, if fewer are left. The reader is still before them.
    pub fn bytes(&mut self, size: u32) -> Result<&'a [u8], ShapeFault>
        ensures read { IfOk result (λ lent. (rest : Table)
            → Passes self.old self.new (Bytes size rest) (lent.now ∷ []) rest) }
        ensures size { IfOk result (λ lent. length lent.now ≡ size) }
        ensures parts { IfOk result (λ lent. self.old.rest.now ≡ lent.now ++ self.new.rest.now) }
        ensures refused { IfErr result (λ fault. (rest : Table) → HasFault self.old (Bytes size rest) fault) }
        ensures same { OnErr result (self.new ≡ self.old) }
    {
        let rest = self.rest;
        self.pass(Next::bytes(size))?;
        let (field, _) = rest.split_at(size as usize);
        Ok(field)
    }

    /// Reads `count` digests of 32 bytes each and lends their bytes.
    ///
    /// # Errors
    /// `Cut`, at the first digest that is not all there. The reader is still before the first of all.
    pub fn digests(&mut self, count: u32) -> Result<&'a [u8], ShapeFault>
        ensures read { IfOk result (λ lent. (all : List (List ℕ)) × AreDigests count lent.now all
            × ((rest : Table) → Passes self.old self.new (digests count rest) all rest)) }
        ensures parts { IfOk result (λ lent. self.old.rest.now ≡ lent.now ++ self.new.rest.now) }
        ensures refused { IfErr result (λ fault. (rest : Table) → HasFault self.old (digests count rest) fault) }
        ensures same { OnErr result (self.new ≡ self.old) }
    {
        let mut reader = *self;
        for _ in 0..count {
            reader.bytes(32)?;
        }
        let many = self.rest.len() - reader.rest.len();
        let (lent, _) = self.rest.split_at(many);
        *self = reader;
        Ok(lent)
    }

    /// Reads the six fields of a header and lends their bytes.
    ///
    /// # Errors
    /// The fault of the first field that is wrong. The reader is still before the header.
    pub fn header(&mut self) -> Result<&'a [u8], ShapeFault>
        ensures read { IfOk result (λ lent. (value : HeaderValue) × IsHeader lent.now value
            × ((rest : Table) → Passes self.old self.new (header rest) (header_fields value) rest)) }
        ensures size { IfOk result (λ lent. length lent.now ≡ 105) }
        ensures parts { IfOk result (λ lent. self.old.rest.now ≡ lent.now ++ self.new.rest.now) }
        ensures refused { IfErr result (λ fault. (rest : Table) → HasFault self.old (header rest) fault) }
        ensures same { OnErr result (self.new ≡ self.old) }
    {
        let mut reader = *self;
        reader.number(1, 1, 1, ShapeKind::Version)?;
        reader.number(4, 1, MAX_DOCUMENTS, ShapeKind::Count)?;
        reader.number(4, 2, 16_777_218, ShapeKind::Count)?;
        reader.digests(3)?;
        let (header, _) = self.rest.split_at(HEADER_BYTES);
        *self = reader;
        Ok(header)
    }

    /// Checks that no bytes are left.
    ///
    /// # Errors
    /// `Trailing`, at the first byte that is left.
    pub fn end(&self) -> Result<(), ShapeFault>
        ensures spelled { OnOk result ((schema : Schema) (bytes : List ℕ) (fields : List (List ℕ))
            → StandsBefore schema bytes fields self.now End → Spells schema bytes fields) }
        ensures refused { IfErr result (HasFault self.now End) }
    {
        if self.rest.is_empty() {
            return Ok(());
        }
        Err(self.fault(ShapeKind::Trailing))
    }
}
