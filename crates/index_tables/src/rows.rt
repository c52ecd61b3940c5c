//! Rows of ids in one array, with one row for each index.
ghost use Rattle.std.specs.Prelude.{◌≡◌, ◌<◌, ◌≤◌, ◌+◌, ◌^◌, IfOk, length, sum};
ghost use Rattle.index_tables.specs.Rows.{row, AreWithin, AreOffsets};

use std::alloc::{AllocError, Global};
use std::marker::Model;

/// Rows of ids: by index where its row begins, and after the last one where that ends.
#[derive(Debug, Drop)]
pub struct Rows {
    offsets: Vec<u32>,
    ids: Vec<u64>,
}

impl Model for Rows {
    ghost use Rattle.index_tables.specs.Rows.{RowsView, AreWithin};

    ghost Value = { RowsView };

    ghost view = { λ rows. record { offsets = rows.offsets.items; ids = rows.ids.items } };

    ghost invariant = { λ rows. AreWithin rows.offsets.items rows.ids.items };
}

impl Rows {
    /// Returns the rows that begin at these offsets. Requires that no row ends before it begins, and that all
    /// ids of a row are there.
    pub fn of(offsets: Vec<u32>, ids: Vec<u64>) -> Rows
        requires { AreWithin offsets.items ids.items }
        ensures offsets { result.offsets ≡ offsets.items }
        ensures ids { result.ids ≡ ids.items }
    {
        Rows { offsets, ids }
    }

    /// Returns the row at this index. Requires that there is one.
    pub fn row(&self, index: usize) -> &[u64]
        requires { index + 1 < length self.now.offsets }
        ensures { result.now ≡ row self.now index }
    {
        let begin = self.offsets[index] as usize;
        let end = self.offsets[index + 1] as usize;
        &self.ids[begin..end]
    }
}

/// Returns where the row of each index begins, if the rows have these lengths, and where the last one ends.
/// Requires at most 2^22 rows and ids. Fails when out of memory.
pub fn find_offsets(alloc: Global, counts: &[u32]) -> Result<Vec<u32>, AllocError>
    requires few { sum counts.now ≤ 2 ^ 22 }
    requires short { length counts.now ≤ 2 ^ 22 }
    ensures { IfOk result (λ offsets. AreOffsets counts.now offsets.items) }
{
    let mut offsets = Vec::with_capacity(alloc, counts.len() + 1)?;
    let mut end = 0u32;
    offsets.push(end)?;
    for count in counts {
        end += *count;
        offsets.push(end)?;
    }
    Ok(offsets)
}
