// Which loops leave the constants of kernels.

ghost use Rattle.std.specs.Prelude.{◌≡◌, ◌<◌, ℕ, true, false, length, get_or, IfOk};
ghost use Rattle.rank_layout.specs.Made.{row_of};
ghost use Rattle.rank_program.specs.Constants.{Apart};

use std::alloc::{AllocError, Global};

// Of so many cells, those with these numbers are marked; one beyond them counts as marked.
fn marks_of(alloc: Global, cells: &[usize], count: usize) -> Result<Vec<bool>, AllocError>
    ensures { IfOk result (λ marks. (j : ℕ) → j < length cells.now → get_or marks.items (get_or cells.now j 0) true ≡ true) }
{
    let mut marks = vec![in alloc; false; count]?;
    for cell in cells {
        if *cell < marks.len() {
            marks[*cell] = true;
        }
    }
    Ok(marks)
}

// Whether none of the cells with these numbers is marked.
fn none_marked(cells: &[usize], marks: &[bool]) -> bool
    ensures { result ≡ true → (i : ℕ) → i < length cells.now → get_or marks.now (get_or cells.now i 0) true ≡ false }
{
    for cell in cells {
        if *cell >= marks.len() || marks[*cell] {
            return false;
        }
    }
    true
}

/// By loop, whether none of its arguments is on a cell of a constant, so that its elements leave the constants' values:
/// of the numbers of these cells, among as many as all variables have.
pub fn constants_stay(
    alloc: Global,
    constants: &[usize],
    loops: &[Vec<usize>],
    cells: usize,
) -> Result<Vec<bool>, AllocError>
    ensures { IfOk result (λ stay. (s : ℕ) → get_or stay.items s false ≡ true → Apart (row_of loops.now s) constants.now) }
{
    let marks = marks_of(alloc, constants, cells)?;
    let mut stay = Vec::with_capacity(alloc, loops.len())?;
    for indices in loops {
        stay.push(none_marked(indices, &marks))?;
    }
    Ok(stay)
}
