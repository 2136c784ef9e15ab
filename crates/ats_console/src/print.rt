//! The lines of rows, of documents and of a root.

ghost use Rattle.std.specs.Prelude.{◌≡◌, string_bytes, IfOk, Some};
ghost use Rattle.hex.specs.Hex.{encode_lower};
ghost use Rattle.ats_console.specs.Words.{root_word};
ghost use Rattle.ats_console.specs.Print.{line_of, lines, line_of_catalog, lines_of_catalog, line_of_document, lines_of_documents, line_of_root};

use ats_bound::Picks;
use ats_catalog_check::{CatalogRow, CatalogRows};
use ats_impact::{Row, Rows};
use std::alloc::{AllocError, Global};

fn line(alloc: Global, rank: u64, row: &Row) -> Result<String, AllocError>
    ensures { IfOk result (λ text. string_bytes text ≡ line_of rank row.now) }
{
    let (doc, lower, upper) = (row.doc, row.lower, row.upper);
    format!(in alloc; "{rank} {doc} {lower} {upper}\n")
}

/// A line for each row, in order.
pub fn lines(alloc: Global, rows: &Rows) -> Result<Vec<u8>, AllocError>
    ensures { IfOk result (λ text. text.items ≡ lines rows.now) }
{
    let mut text = Vec::new(alloc);
    let rows = rows.as_slice();
    for i in 0..rows.len() {
        let line = line(alloc, i as u64 + 1, &rows[i])?;
        text.extend_from_slice(line.as_bytes())?;
    }
    Ok(text)
}

fn catalog_line(alloc: Global, rank: u64, row: CatalogRow) -> Result<String, AllocError>
    ensures { IfOk result (λ text. string_bytes text ≡ line_of_catalog rank row) }
{
    let (shard, doc, lower, upper) = (row.shard, row.doc, row.lower, row.upper);
    format!(in alloc; "{rank} {shard} {doc} {lower} {upper}\n")
}

/// A line for each row of a catalog's answer, in order.
pub fn catalog_lines(alloc: Global, rows: &CatalogRows) -> Result<Vec<u8>, AllocError>
    ensures { IfOk result (λ text. text.items ≡ lines_of_catalog rows.now.rows) }
{
    let mut text = Vec::new(alloc);
    for i in 0..rows.len() {
        let line = catalog_line(alloc, i as u64 + 1, rows.get(i))?;
        text.extend_from_slice(line.as_bytes())?;
    }
    Ok(text)
}

fn document_line(alloc: Global, doc: u32) -> Result<String, AllocError>
    ensures { IfOk result (λ text. string_bytes text ≡ line_of_document doc) }
{
    format!(in alloc; "{doc}\n")
}

/// A line for each document, in order.
pub fn document_lines(alloc: Global, documents: &Picks) -> Result<Vec<u8>, AllocError>
    ensures { IfOk result (λ text. text.items ≡ lines_of_documents documents.now) }
{
    let mut text = Vec::new(alloc);
    let documents = documents.as_slice();
    for i in 0..documents.len() {
        let line = document_line(alloc, documents[i])?;
        text.extend_from_slice(line.as_bytes())?;
    }
    Ok(text)
}

/// The digits of a root, in a line. They are the word for this root.
#[tactic(auto, using(crate::proofs::RootWords::digits_spell_roots))]
pub fn root_line(alloc: Global, root: &[u8; 32]) -> Result<String, AllocError>
    ensures line { IfOk result (λ text. string_bytes text ≡ line_of_root root.now) }
    ensures word { root_word (encode_lower root.now) ≡ Some root.now }
{
    let digits = hex::encode(alloc, root)?;
    format!(in alloc; "{digits}\n")
}
