//! The laws of all spellings of a schema, as contracts of functions that do nothing.

ghost use Rattle.std.specs.Prelude.{◌≡◌, ◌≢◌, ◌+◌, ◌≤◌, ◌++◌, ℕ, List, length};
ghost use Rattle.ats_grammar.specs.declared.fault.ShapeFault.{ShapeFault};
ghost use Rattle.ats_grammar.specs.declared.fault.ShapeKind.TheVariants.{Cut, Trailing};
ghost use Rattle.ats_grammar.specs.Front.{Spells, IsBad, IsFirst};
ghost use Rattle.ats_grammar.specs.Table.{Schema};

/// Bytes spell at most one list of fields.
pub fn spellings_tell_their_fields()
    ensures { (schema : Schema) (bytes : List ℕ) (fields others : List (List ℕ))
        → Spells schema bytes fields → Spells schema bytes others → fields ≡ others }
{}

/// If further bytes follow what is spelled, the fault is at the first of them.
pub fn further_bytes_are_trailing()
    ensures { (schema : Schema) (bytes more : List ℕ) (fields : List (List ℕ))
        → Spells schema bytes fields → 1 ≤ length more → length bytes + length more ≤ schema.limit
        → IsBad schema (bytes ++ more) (record { at = length bytes; kind = Trailing }) }
{}

/// A fault other than `Cut` is the fault of all longer bytes too, within the limit.
pub fn faults_stay()
    ensures { (schema : Schema) (bytes more : List ℕ) (fault : ShapeFault)
        → IsFirst schema bytes fault → fault.kind ≢ Cut → length bytes + length more ≤ schema.limit
        → IsFirst schema (bytes ++ more) fault }
{}

/// Bytes have at most one fault, and none if they spell fields.
pub fn bytes_have_one_fault()
    ensures one { (schema : Schema) (bytes : List ℕ) (a b : ShapeFault)
        → IsBad schema bytes a → IsBad schema bytes b → a ≡ b }
    ensures none { (schema : Schema) (bytes : List ℕ) (fields : List (List ℕ)) (fault : ShapeFault)
        → Spells schema bytes fields → IsBad schema bytes fault → ⊥ }
{}
