// Classes of equal rows.
ghost use Rattle.std.specs.Prelude.{◌≡◌, ◌+◌, ◌*◌, ◌<◌, ◌≤◌, ◌^◌, ◌↔◌, ℕ, IfOk, length, slice_index};
ghost use Rattle.gmsh_mesh.specs.EqualKeys.{AreRowClasses, AreRowClassesUpTo, AreJoined};

use crate::equal_keys::classing::classes;
use std::alloc::{AllocError, Global};

/// The class of each row, at its place: equal rows have one class, others have others, and each class is below the
/// number of rows, `count`. The rows stand one behind another, each of `width` numbers. It takes time n log n for each
/// number of a row, and fails only for want of memory.
pub fn row_classes(
    alloc: Global,
    count: usize,
    width: usize,
    rows: &[u32],
) -> Result<Vec<u32>, AllocError>
    requires few { count < 2 ^ 32 }
    requires table { length rows.now ≡ count * width }
    ensures { IfOk result (λ of. AreRowClasses rows.now count width of.items) }
{
    let mut of = vec![in alloc; 0u32; count]?;
    for column in 0..width {
        let keys = joined(alloc, &of, column, width, rows)?;
        of = classes(alloc, &keys)?;
    }
    Ok(of)
}

// A key for each row from its class and its number in a column.
fn joined(
    alloc: Global,
    of: &[u32],
    column: usize,
    width: usize,
    rows: &[u32],
) -> Result<Vec<u64>, AllocError>
    requires column { column < width }
    requires table { length rows.now ≡ length of.now * width }
    ensures { IfOk result (λ keys. AreJoined of.now column width rows.now keys.items) }
{
    let mut keys = Vec::with_capacity(alloc, of.len())?;
    for (row, class) in of.iter().enumerate() {
        let number = rows[row * width + column];
        keys.push(u64::from(*class) * 4294967296 + u64::from(number))?;
    }
    Ok(keys)
}
