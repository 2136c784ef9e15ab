//! What an audit says of an accepted answer, as a contract of a function that does nothing.

ghost use Rattle.std.specs.Prelude.{ℕ, List};
ghost use Rattle.ats_terms.specs.Query.{IsQuery};
ghost use Rattle.ats_catalog_bytes.specs.Value.{Framed};
ghost use Rattle.ats_catalog_check.specs.Bytes.{IsAcceptedCatalog};
ghost use Rattle.ats_catalog_audit.specs.Verdicts.{IsCatalogTopOrTold};

use ats_catalog_check::accepted_catalogs_are_top;
use ats_hash::HashKind;

/// For each catalog with the root, either the rows of an accepted proof are right, or the audit against that catalog
/// returns two different strings with equal digests.
pub fn accepted_catalogs_are_audited<H: HashKind>()
    ensures { (root : List ℕ) (query : List (List ℕ × ℕ)) (r : ℕ) (bytes : List ℕ) (shards : List Framed) → IsQuery query
        → IsAcceptedCatalog H.hash root query r bytes shards → IsCatalogTopOrTold H.hash root query r bytes shards }
{
    accepted_catalogs_are_top::<H>();
}
