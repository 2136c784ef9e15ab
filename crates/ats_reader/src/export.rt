//! The calls for C.

ghost use Rattle.std.specs.Prelude.{◌≡◌, ◌≢◌, ◌⊎◌, ◌<◌, ◌≤◌, ◌++◌, ◌∷◌, [], length, take, drop, map};
ghost use Rattle.ats_reader.specs.declared.fault.Fault.{Fault};
ghost use Rattle.ats_reader.specs.Answer.{IsAnswer, IsFault};
ghost use Rattle.ats_reader.specs.Both.{IsBothAnswer, IsBothFault};
ghost use Rattle.ats_reader.specs.Catalog.{IsCatalogAnswer, IsCatalogFault, IsRootAnswer, IsRootFault};
ghost use Rattle.ats_reader.specs.Growth.{IsGrowthAnswer, IsGrowthFault};
ghost use Rattle.ats_reader.specs.Lines.{line_of};
ghost use Rattle.ats_reader.specs.Query.{IsQueryAnswer, IsQueryFault};
ghost use Rattle.ats_reader.specs.Text.{IsTextAnswer, IsTextFault};
ghost use Rattle.ats_reader.specs.Verdicts.{shown_row, shown_catalog_row, shown_term, verdict_of};

use crate::answers::{
    catalog_rows_for, documents_for, growth_for, roots_in, rows_for, terms_for, text_for,
};
use crate::lines::line;
use crate::shown::{
    ShownCatalogRow, ShownRow, ShownTerm, Verdict, accepted, of_fault, shown_catalog_row,
    shown_row, shown_term,
};
use ats_catalog_bytes::{catalog_root, roots_bind_catalogs};
use ats_catalog_check::CatalogRows;
use ats_hash::{Sha, Steps};
use ats_impact::Rows;
use ats_terms::Query;
use std::alloc::Global;
use unicode_segmentation::UNICODE_VERSION;

// The version of the calls and of what they write.
const VERSION: u32 = 1;

// Puts the rows at the front of the room for them.
fn show_rows(rows: &Rows, room: &mut [ShownRow])
    requires { length rows.now ≤ length room.old }
    ensures shown { take (length rows.now) room.new ≡ map shown_row rows.now }
    ensures rest { drop (length rows.now) room.new ≡ drop (length rows.now) room.old }
{
    for i in 0..rows.len() {
        room[i] = shown_row(rows.get(i));
    }
}

// Puts the rows of a catalog's answer at the front of the room for them.
fn show_catalog_rows(rows: &CatalogRows, room: &mut [ShownCatalogRow])
    requires { length rows.now.rows ≤ length room.old }
    ensures shown { take (length rows.now.rows) room.new ≡ map shown_catalog_row rows.now.rows }
    ensures rest { drop (length rows.now.rows) room.new ≡ drop (length rows.now.rows) room.old }
{
    for i in 0..rows.len() {
        room[i as usize] = shown_catalog_row(rows.get(i));
    }
}

// Puts the terms at the front of the room for them.
fn show_terms(query: &Query, room: &mut [ShownTerm])
    requires { length query.now ≤ length room.old }
    ensures shown { take (length query.now) room.new ≡ map shown_term query.now }
    ensures rest { drop (length query.now) room.new ≡ drop (length query.now) room.old }
{
    for i in 0..query.len() {
        room[i] = shown_term(query, i);
    }
}

/// Checks the bytes of a proof under a root, for a query and the `r` best documents. `rows` needs room for `r` rows: the
/// room is compared with `r`, not with the rows of the answer, so too little is found before the check.
#[unsafe(no_mangle)]
pub extern "C" fn ats_check(
    alloc: Global,
    proof: &[u8],
    root: &[u8; 32],
    query: &[u8],
    r: u32,
    rows: &mut [ShownRow],
    verdict: &mut Verdict,
)
    ensures accepted { verdict.new.status ≡ 0
        → IsAnswer root.now query.now r proof.now rows.old rows.new verdict.new }
    ensures fault { verdict.new.status ≢ 0 → (fault : Fault)
        × IsFault root.now query.now r proof.now (length rows.old) fault × (verdict.new ≡ verdict_of fault) }
    ensures unchanged { verdict.new.status ≢ 0 → rows.new ≡ rows.old }
{
    *verdict = match rows_for(alloc, proof, root, query, r, rows.len()) {
        Ok(answer) => {
            show_rows(&answer, rows);
            accepted(answer.len(), 0, 0)
        }
        Err(fault) => of_fault(fault),
    };
}

/// Checks the bytes of a proof under a root, as one of all documents that have every term of a query. `docs` needs room
/// for these documents.
#[unsafe(no_mangle)]
pub extern "C" fn ats_both(
    alloc: Global,
    proof: &[u8],
    root: &[u8; 32],
    query: &[u8],
    docs: &mut [u32],
    verdict: &mut Verdict,
)
    ensures accepted { verdict.new.status ≡ 0
        → IsBothAnswer root.now query.now proof.now docs.old docs.new verdict.new }
    ensures fault { verdict.new.status ≢ 0 → (fault : Fault)
        × IsBothFault root.now query.now proof.now (length docs.old) fault × (verdict.new ≡ verdict_of fault) }
    ensures unchanged { verdict.new.status ≢ 0 → docs.new ≡ docs.old }
{
    *verdict = match documents_for(alloc, proof, root, query, docs.len()) {
        Ok(shown) => {
            docs[..shown.len()].copy_from_slice(shown.as_slice());
            accepted(shown.len(), 0, 0)
        }
        Err(fault) => of_fault(fault),
    };
}

/// Checks the bytes of a catalog's proof under the root of the catalog, for a query and the `r` best documents of all
/// shards. `rows` needs room for `r` rows, as for [`ats_check`].
#[unsafe(no_mangle)]
pub extern "C" fn ats_catalog(
    alloc: Global,
    proof: &[u8],
    root: &[u8; 32],
    query: &[u8],
    r: u32,
    rows: &mut [ShownCatalogRow],
    verdict: &mut Verdict,
)
    ensures accepted { verdict.new.status ≡ 0
        → IsCatalogAnswer root.now query.now r proof.now rows.old rows.new verdict.new }
    ensures fault { verdict.new.status ≢ 0 → (fault : Fault)
        × IsCatalogFault root.now query.now r proof.now (length rows.old) fault × (verdict.new ≡ verdict_of fault) }
    ensures unchanged { verdict.new.status ≢ 0 → rows.new ≡ rows.old }
{
    *verdict = match catalog_rows_for(alloc, proof, root, query, r, rows.len()) {
        Ok(answer) => {
            show_catalog_rows(&answer, rows);
            accepted(answer.len() as usize, 0, 0)
        }
        Err(fault) => of_fault(fault),
    };
}

/// Computes the root of the catalog whose shards have these roots of 32 bytes, one after another, shard 0 first.
#[unsafe(no_mangle)]
pub extern "C" fn ats_catalog_root(
    alloc: Global,
    roots: &[u8],
    root: &mut [u8; 32],
    verdict: &mut Verdict,
)
    ensures accepted { verdict.new.status ≡ 0 → IsRootAnswer roots.now root.new verdict.new }
    ensures fault { verdict.new.status ≢ 0 → (fault : Fault)
        × IsRootFault roots.now fault × (verdict.new ≡ verdict_of fault) }
    ensures unchanged { verdict.new.status ≢ 0 → root.new ≡ root.old }
{
    roots_bind_catalogs::<Sha>();
    *verdict = match roots_in(roots) {
        Ok(shards) => {
            *root = catalog_root::<Sha>(shards, &mut Steps::new(alloc));
            accepted(shards.len(), 0, 0)
        }
        Err(fault) => of_fault(fault),
    };
}

/// Checks the bytes of a file that gives the text of document `doc`, from 0, under a root, and tells where the text lies
/// in them.
#[unsafe(no_mangle)]
pub extern "C" fn ats_text(
    alloc: Global,
    file: &[u8],
    root: &[u8; 32],
    doc: u32,
    verdict: &mut Verdict,
)
    ensures accepted { verdict.new.status ≡ 0 → IsTextAnswer root.now doc file.now verdict.new }
    ensures fault { verdict.new.status ≢ 0 → (fault : Fault)
        × IsTextFault root.now doc file.now fault × (verdict.new ≡ verdict_of fault) }
{
    *verdict = match text_for(alloc, file, root, doc) {
        Ok(text) => accepted(0, text.first, text.size),
        Err(fault) => of_fault(fault),
    };
}

/// Checks the bytes of a file that shows how the archive of one root grew to that of the other, and tells how many
/// documents both have.
#[unsafe(no_mangle)]
pub extern "C" fn ats_growth(
    alloc: Global,
    file: &[u8],
    old_root: &[u8; 32],
    new_root: &[u8; 32],
    verdict: &mut Verdict,
)
    ensures accepted { verdict.new.status ≡ 0 → IsGrowthAnswer old_root.now new_root.now file.now verdict.new }
    ensures fault { verdict.new.status ≢ 0 → (fault : Fault)
        × IsGrowthFault old_root.now new_root.now file.now fault × (verdict.new ≡ verdict_of fault) }
{
    *verdict = match growth_for(alloc, file, old_root, new_root) {
        Ok(grown) => accepted(0, grown.old as u64, grown.new as u64),
        Err(fault) => of_fault(fault),
    };
}

/// Reads a query. `terms` needs room for its terms.
#[unsafe(no_mangle)]
pub extern "C" fn ats_query(
    alloc: Global,
    query: &[u8],
    terms: &mut [ShownTerm],
    verdict: &mut Verdict,
)
    ensures accepted { verdict.new.status ≡ 0 → IsQueryAnswer query.now terms.old terms.new verdict.new }
    ensures fault { verdict.new.status ≢ 0 → (fault : Fault)
        × IsQueryFault query.now (length terms.old) fault × (verdict.new ≡ verdict_of fault) }
    ensures unchanged { verdict.new.status ≢ 0 → terms.new ≡ terms.old }
{
    *verdict = match terms_for(alloc, query, terms.len()) {
        Ok(read) => {
            show_terms(&read, terms);
            accepted(read.len(), 0, 0)
        }
        Err(fault) => of_fault(fault),
    };
}

/// Writes the line of a verdict, without a line feed, and returns 0. `size` is then how many bytes it has. Returns 2
/// if there is too little room for them, with `size` all the same, and 6 if memory ran out, which it may for any room.
#[unsafe(no_mangle)]
pub extern "C" fn ats_line(
    alloc: Global,
    verdict: &Verdict,
    text: &mut [u8],
    size: &mut usize,
) -> u32
    ensures status { (result ≡ 0) ⊎ (result ≡ 2) ⊎ (result ≡ 6) }
    ensures written { result ≡ 0 → text.new ≡ line_of verdict.now ++ drop (length (line_of verdict.now)) text.old }
    ensures size { result ≢ 6 → size.new ≡ length (line_of verdict.now) }
    ensures fits { result ≡ 0 → size.new ≤ length text.old }
    ensures room { result ≡ 2 → length text.old < size.new }
    ensures unchanged { result ≢ 0 → text.new ≡ text.old }
    ensures memory { result ≡ 6 → size.new ≡ size.old }
{
    let line = match line(alloc, verdict) {
        Ok(line) => line,
        Err(_) => return 6,
    };
    *size = line.len();
    if text.len() < line.len() {
        return 2;
    }
    text[..line.len()].copy_from_slice(line.as_bytes());
    0
}

/// Returns the version of the calls, and writes the three numbers of that of Unicode by which words are found.
#[unsafe(no_mangle)]
pub extern "C" fn ats_version(unicode: &mut [u32; 3]) -> u32
    ensures calls { result ≡ 1 }
    ensures unicode { unicode.new ≡ 18 ∷ 0 ∷ 0 ∷ [] }
{
    let (major, minor, update) = UNICODE_VERSION;
    *unicode = [major as u32, minor as u32, update as u32];
    VERSION
}
