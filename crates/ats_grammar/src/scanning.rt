//! Whether bytes spell a proof.

ghost use Rattle.std.specs.Prelude.{◌≡◌, List, ℕ, OnOk, IfErr, Ok, Err};
ghost use Rattle.ats_grammar.specs.declared.fault.ShapeFault.{ShapeFault};
ghost use Rattle.ats_grammar.specs.Front.{Spells, IsSpelling, IsBad};
ghost use Rattle.ats_grammar.specs.Grammar.{proof_schema};

use crate::fault::ShapeFault;
use crate::feeder::Feeder;

// Reads the bytes as one piece.
fn read(bytes: &[u8]) -> Result<(), ShapeFault>
    ensures spelled { OnOk result (IsSpelling proof_schema bytes.now) }
    ensures refused { IfErr result (λ fault. IsBad proof_schema bytes.now fault) }
{
    let mut feeder = Feeder::new(bytes.len() as u64)?;
    feeder.feed(bytes)?;
    feeder.finish()
}

/// Reads the bytes from left to right, and returns the first fault if they spell no proof.
pub fn scan(bytes: &[u8]) -> Result<(), ShapeFault>
    ensures spelled { OnOk result (IsSpelling proof_schema bytes.now) }
    ensures refused { IfErr result (λ fault. IsBad proof_schema bytes.now fault) }
    ensures read { (fields : List (List ℕ)) → Spells proof_schema bytes.now fields → result ≡ Ok tt }
    ensures exact { (fault : ShapeFault) → IsBad proof_schema bytes.now fault → result ≡ Err fault }
{
    read(bytes)
}
