//! Rows by index, made only up to the greatest index at which one is written: an index may be as great as
//! there are tasks, and few of them may have a row.
ghost use Rattle.std.specs.Prelude.{ℕ, ◌≡◌, ◌<◌, ◌≤◌, OnOk, length};
ghost use Rattle.task_states.specs.Rows.{row_at, AreSameRows};

use std::alloc::{AllocError, Global};

/// Adds empty rows up to this index. Fails only when out of memory.
pub fn reach<T: Drop>(alloc: Global, rows: &mut Vec<Vec<T>>, index: usize) -> Result<(), AllocError>
    ensures made { OnOk result (index < length rows.new.items) }
    ensures same { OnOk result (AreSameRows rows.old.items rows.new.items) }
    ensures few { OnOk result ((most : ℕ) → length rows.old.items ≤ most → index < most
        → length rows.new.items ≤ most) }
{
    'room: while rows.len() <= index {
        rows.push(Vec::new(alloc))?;
    }
    Ok(())
}

/// Returns the row with this index, empty where none is made.
pub fn row<T>(rows: &[Vec<T>], index: usize) -> &[T]
    ensures { result.now ≡ row_at rows.now index }
{
    match rows.get(index) {
        Some(row) => row.as_slice(),
        None => &[],
    }
}
