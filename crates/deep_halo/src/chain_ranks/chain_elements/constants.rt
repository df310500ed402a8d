// The values of the constants that kernels read.

ghost use Rattle.std.specs.Prelude.{◌≡◌, ◌<◌, ◌≤◌, ◌+◌, ◌⊎◌, ℕ, pos, length, get_or};
ghost use Rattle.schedule_model.specs.Cells.{Variable};
ghost use Rattle.run_model.specs.Kernels.{constants};
ghost use Rattle.run_model.specs.Windows.{Whole, cell_in};
ghost use Rattle.run_model.specs.Arguments.{var_width};
ghost use Rattle.deep_halo.specs.Places.{in_block, all_cells};
ghost use Rattle.deep_halo.specs.Sound.{Sound, program_in, ranks_in};
ghost use Rattle.deep_halo.specs.Cells.{Values, Hold};
ghost use Rattle.deep_halo.specs.Constants.{AreRead, constants_in};

use crate::chain_memory::Blocks;

// Copies cells from one list to another.
fn copy_from(source: &[i32], from: usize, target: &mut [i32], to: usize, count: usize)
    requires source { from + count ≤ length source.now }
    requires target { to + count ≤ length target.old }
    ensures copied { (i : ℕ) → i < count → get_or target.new (to + i) (pos 0) ≡ get_or source.now (from + i) (pos 0) }
    ensures others { (k : ℕ) → (k < to) ⊎ (to + count ≤ k) → get_or target.new k (pos 0) ≡ get_or target.old k (pos 0) }
{
    for i in 0..count {
        target[to + i] = source[from + i];
    }
}

// Where the cells of a variable stand behind the ranks' blocks.
fn last_at(blocks: &Blocks<'_>, var: usize) -> usize
    requires sound { Sound blocks.now }
    requires var { var < length (program_in blocks.now).vars }
    ensures is { result ≡ in_block (program_in blocks.now) (ranks_in blocks.now) (cell_in (Whole var) 0) }
    ensures within { result + var_width (program_in blocks.now) var ≤ all_cells (program_in blocks.now) (ranks_in blocks.now) }
{
    run_model::memory_holds();
    blocks.owners.ranks as usize * blocks.layout.cells
        + blocks.layout.dats_end
        + blocks.layout.vars[var]
}

// The values of a variable's constants, if it has some.
fn read_variable(memory: &[i32], blocks: &Blocks<'_>, var: usize, values: &mut [i32])
    requires sound { Sound blocks.now }
    requires memory { length memory.now ≡ all_cells (program_in blocks.now) (ranks_in blocks.now) }
    requires values { length values.old ≡ length (constants (program_in blocks.now)) }
    requires var { var < length (program_in blocks.now).vars }
    ensures { (f : Values) → Hold blocks.now memory.now f
        → AreRead (program_in blocks.now) (λ v. f (ranks_in blocks.now) (Variable v)) var values.old
        → AreRead (program_in blocks.now) (λ v. f (ranks_in blocks.now) (Variable v)) (var + 1) values.new }
{
    run_model::constants_are_read();
    let found = &blocks.bound.vars[var];
    if let Some(first) = found.constant {
        let count = found.start.as_slice().len();
        copy_from(memory, last_at(blocks, var), values, first as usize, count);
    }
}

/// Reads the values of all constants from the program's variables.
pub fn read_constants(memory: &[i32], blocks: &Blocks<'_>, values: &mut [i32])
    requires sound { Sound blocks.now }
    requires memory { length memory.now ≡ all_cells (program_in blocks.now) (ranks_in blocks.now) }
    requires values { length values.old ≡ length (constants (program_in blocks.now)) }
    ensures { (f : Values) → Hold blocks.now memory.now f
        → values.new ≡ constants_in (program_in blocks.now) (λ v. f (ranks_in blocks.now) (Variable v)) }
{
    run_model::constants_are_read();
    for var in 0..blocks.bound.vars.len() {
        read_variable(memory, blocks, var, values);
    }
}
