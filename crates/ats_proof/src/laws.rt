//! The laws of all proofs and of the bytes that spell them, as contracts of functions that do nothing.

ghost use Rattle.std.specs.Prelude.{◌≡◌, ◌+◌, ◌≤◌, ◌^◌, ◌++◌, ℕ, List, length, Some};
ghost use Rattle.ats_grammar.specs.declared.fault.ShapeKind.TheVariants.{Trailing};
ghost use Rattle.ats_grammar.specs.Front.{Spells, IsBad};
ghost use Rattle.ats_grammar.specs.Grammar.{proof_schema};
ghost use Rattle.ats_proof.specs.Parts.{AreBytes};
ghost use Rattle.ats_proof.specs.Ranges.{IsInRange};
ghost use Rattle.ats_proof.specs.Reading.{proof_in};
ghost use Rattle.ats_proof.specs.Value.{Proof, IsProof};
ghost use Rattle.ats_proof.specs.Written.{writing, after};

/// Bytes spell at most one proof.
pub fn bytes_say_one_proof()
    ensures { (bytes : List ℕ) (proof other : Proof) → IsProof bytes proof → IsProof bytes other → proof ≡ other }
{}

/// A proof has at most one spelling.
pub fn proofs_have_one_spelling()
    ensures { (bytes others : List ℕ) (proof : Proof) → IsProof bytes proof → IsProof others proof → bytes ≡ others }
{}

/// Bytes that are fields by the grammar spell a proof: the one that is read from them, part by part.
pub fn spellings_say_proofs()
    ensures { (bytes : List ℕ) (fields : List (List ℕ))
        → AreBytes bytes → Spells proof_schema bytes fields → IsProof bytes (proof_in bytes) }
{}

/// If further bytes follow a proof's spelling, the fault is at the first of them.
pub fn further_bytes_are_trailing()
    ensures { (bytes more : List ℕ) (proof : Proof) → IsProof bytes proof
        → 1 ≤ length more → length bytes + length more ≤ 2 ^ 26
        → IsBad proof_schema (bytes ++ more) (record { at = length bytes; kind = Trailing }) }
{}

/// If the bytes of a proof were appended to a writer, within its limit, the writer keeps them. What it keeps is then
/// read as that proof and no other.
pub fn what_is_written_is_read()
    ensures kept { (limit : ℕ) (bytes : List ℕ) → length bytes ≤ limit → (writing limit bytes).kept ≡ Some bytes }
    ensures read { (limit : ℕ) (bytes kept : List ℕ) (proof other : Proof) → IsProof bytes proof
        → (writing limit bytes).kept ≡ Some kept
        → IsProof kept proof × (IsProof kept other → other ≡ proof) }
{}

/// The parts of a proof are in their ranges, whatever bytes spell it.
pub fn proofs_are_in_range()
    ensures { (bytes : List ℕ) (proof : Proof) → IsProof bytes proof → IsInRange proof }
{}

/// A record's bytes follow those that were appended before it, within the limit and past it.
pub fn records_are_joined()
    ensures { (limit : ℕ) (bytes more : List ℕ) → after (writing limit bytes) more ≡ writing limit (bytes ++ more) }
{}
