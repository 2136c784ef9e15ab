//! The rows of an answer from several archives.

ghost use Rattle.std.specs.Prelude.{◌≡◌, ◌<◌, ◌≤◌, ◌^◌, [], length, IfOk};
ghost use Rattle.ats_catalog_check.specs.Merge.{row_at};

use ats_bound::OutOfMemory;
use std::alloc::Global;
use std::marker::Model;

/// A document of an answer, with bounds of its score: the number of its shard, and its number there, both counted from 0.
#[derive(Clone, Copy, Debug, PartialEq, Eq)]
pub struct CatalogRow {
    pub shard: u32,
    pub doc: u32,
    pub lower: u64,
    pub upper: u64,
}

const ZERO: CatalogRow = CatalogRow {
    shard: 0,
    doc: 0,
    lower: 0,
    upper: 0,
};

/// Memory for the rows of an answer, allocated once and used for many checks.
#[derive(Drop)]
pub struct CatalogRows {
    pub(crate) items: Vec<CatalogRow>,
    pub(crate) len: u32,
}

impl Model for CatalogRows {
    ghost use Rattle.std.specs.Prelude.{◌≤◌, ◌<◌, ◌^◌, length, take};
    ghost use Rattle.ats_catalog_check.specs.Merge.{Held};

    ghost Value = { Held };

    ghost view = { λ r. record { rows = take r.len r.items.items; room = length r.items.items } };

    ghost invariant = { λ r. (r.len ≤ length r.items.items) × (length r.items.items < 2 ^ 32) };
}

impl CatalogRows {
    /// Room for `n` rows. There are none yet.
    pub fn with_room(alloc: Global, n: u32) -> Result<Self, OutOfMemory>
        ensures { IfOk result (λ rows. (rows.rows ≡ []) × (rows.room ≡ n)) }
    {
        let items = vec![in alloc; ZERO; n as usize]?;
        Ok(CatalogRows { items, len: 0 })
    }

    /// How many rows there may be.
    pub fn room(&self) -> u32
        ensures { result ≡ self.now.room }
    {
        self.items.len() as u32
    }

    /// The number of rows.
    pub fn len(&self) -> u32
        ensures { result ≡ length self.now.rows }
    {
        self.len
    }

    /// Row `i`, counted from 0.
    pub fn get(&self, i: u32) -> CatalogRow
        requires { i < length self.now.rows }
        ensures { result ≡ row_at self.now.rows i }
    {
        self.items[i as usize]
    }

    /// Lets all rows go.
    pub(crate) fn clear(&mut self)
        ensures rows { self.new.rows ≡ [] }
        ensures room { self.new.room ≡ self.old.room }
    {
        self.len = 0;
    }
}
