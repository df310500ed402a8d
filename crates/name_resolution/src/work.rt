// The work of a kernel, and the cells of its locals.

ghost use Rattle.std.specs.Prelude.{◌≡◌, ◌<◌, ◌^◌, ◌+◌, ◌*◌, ◌≤◌, min, map};
ghost use Rattle.c_tree.specs.View.{declr_of, stmt_of, stmts_of, kernel_of};
ghost use Rattle.name_resolution.specs.Work.{size_of, nat_of, turns, work, work_of_all, declr_cells, declrs_cells, cells, cells_of_all};
ghost use Rattle.name_resolution.specs.Work.{is_heavy, behind};

use c_tree::{Declr, ForHeader, Kernel, NumberLiteral, Stmt};

/// The most cells that a kernel's locals have.
const MAX_CELLS: u32 = 1024;

// The most work that a kernel does.
const MAX_WORK: u64 = 1_048_576;

/// The number that a literal spells.
pub fn size_of(number: NumberLiteral) -> u32
    ensures value { result ≡ size_of number }
    ensures bound { result < 2 ^ 31 }
{
    number.value.max(0).unsigned_abs()
}

/// The first cell behind so many others from `next` on, at most 1,024.
pub fn behind(next: u32, count: u32) -> u32
    ensures { result ≡ behind next count }
{
    if next >= MAX_CELLS || count >= MAX_CELLS {
        MAX_CELLS
    } else {
        MAX_CELLS.min(next + count)
    }
}

// How often the body of a `for` is run.
fn turns(header: &ForHeader) -> u64
    ensures { result ≡ turns header.now }
{
    u64::from(size_of(header.to).saturating_sub(size_of(header.from)))
}

// A sum, up to one more than the most work.
fn capped_sum(a: u64, b: u64) -> u64
    requires { a ≤ 1048577 }
    ensures { result ≡ min 1048577 (a + b) }
{
    if b > MAX_WORK {
        MAX_WORK + 1
    } else {
        (MAX_WORK + 1).min(a + b)
    }
}

// The work of a `for`, up to one more than the most, where that of its body is given so.
fn for_work(turns: u64, body: u64) -> u64
    requires body { body ≤ 1048577 }
    ensures { result ≡ min 1048577 (1 + turns * (1 + body)) }
{
    if turns > MAX_WORK {
        MAX_WORK + 1
    } else {
        (MAX_WORK + 1).min(1 + turns * (1 + body))
    }
}

// The work of a statement, up to one more than the most.
#[cycle(works)]
fn work(stmt: &Stmt) -> u64
    ensures { result ≡ min 1048577 (work (stmt_of stmt.now)) }
{
    match stmt {
        Stmt::Declaration(declaration) => capped_sum(0, declaration.declrs.len() as u64),
        Stmt::Block { body, .. } => work_of_all(body),
        Stmt::Empty(_) => 1,
        Stmt::Assign(_) => 1,
        Stmt::If { then, .. } => capped_sum(1, work(then)),
        Stmt::IfElse {
            then,
            otherwise,
            ..
        } => capped_sum(1, work(then).max(work(otherwise))),
        Stmt::For { header, body } => for_work(turns(header), work(body)),
    }
}

// A sum of cells, up to one more than the most.
fn capped_cells(a: u32, b: u32) -> u32
    requires { a ≤ 1025 }
    ensures { result ≡ min 1025 (a + b) }
{
    if b > MAX_CELLS {
        MAX_CELLS + 1
    } else {
        (MAX_CELLS + 1).min(a + b)
    }
}

/// The cells of a declarator.
pub fn declr_cells(declr: &Declr) -> u32
    ensures { result ≡ declr_cells (declr_of declr.now) }
{
    match declr {
        Declr::Plain(_) => 1,
        Declr::Init { .. } => 1,
        Declr::Array { length, .. } => size_of(*length),
    }
}

// The cells of declarators, up to one more than the most.
fn declrs_cells(declrs: &[Declr]) -> u32
    ensures { result ≡ min 1025 (declrs_cells (map declr_of declrs.now)) }
{
    let mut total = 0;
    for declr in declrs {
        total = capped_cells(total, declr_cells(declr));
    }
    total
}

// The cells that a statement declares, up to one more than the most.
#[cycle(cell_counts)]
fn cells(stmt: &Stmt) -> u32
    ensures { result ≡ min 1025 (cells (stmt_of stmt.now)) }
{
    match stmt {
        Stmt::Declaration(declaration) => declrs_cells(&declaration.declrs),
        Stmt::Block { body, .. } => cells_of_all(body),
        Stmt::Empty(_) => 0,
        Stmt::Assign(_) => 0,
        Stmt::If { then, .. } => cells(then),
        Stmt::IfElse {
            then,
            otherwise,
            ..
        } => capped_cells(cells(then), cells(otherwise)),
        Stmt::For { body, .. } => capped_cells(1, cells(body)),
    }
}

// The work of statements, up to one more than the most.
#[cycle(works)]
fn work_of_all(stmts: &[Stmt]) -> u64
    ensures { result ≡ min 1048577 (work_of_all (stmts_of stmts.now)) }
{
    let mut total = 0;
    for stmt in stmts {
        total = capped_sum(total, work(stmt));
    }
    total
}

// The cells that statements declare, up to one more than the most.
#[cycle(cell_counts)]
fn cells_of_all(stmts: &[Stmt]) -> u32
    ensures { result ≡ min 1025 (cells_of_all (stmts_of stmts.now)) }
{
    let mut total = 0;
    for stmt in stmts {
        total = capped_cells(total, cells(stmt));
    }
    total
}

/// The cells of a kernel's locals, at most 1,024.
pub fn scratch_of(kernel: &Kernel) -> u32
    ensures { result ≡ behind 0 (cells_of_all (stmts_of kernel.now.body.items)) }
{
    cells_of_all(&kernel.body).min(MAX_CELLS)
}

/// Whether a kernel does too much work or has too many cells.
pub fn is_heavy(kernel: &Kernel) -> bool
    ensures { result ≡ is_heavy (kernel_of kernel.now) }
{
    work_of_all(&kernel.body) > MAX_WORK || cells_of_all(&kernel.body) > MAX_CELLS
}
