// Cells of a memory, by place.

ghost use Rattle.std.specs.Prelude.{◌≡◌, ◌<◌, ◌≤◌, ◌+◌, ◌⊎◌, ℕ, pos, length, get_or};

/// Copies `count` cells from one place to another, at which none of them stands.
pub fn copy_cells(memory: &mut [i32], from: usize, to: usize, count: usize)
    requires from { from + count ≤ length memory.old }
    requires to { to + count ≤ length memory.old }
    requires apart { (from + count ≤ to) ⊎ (to + count ≤ from) }
    ensures copied { (i : ℕ) → i < count → get_or memory.new (to + i) (pos 0) ≡ get_or memory.old (from + i) (pos 0) }
    ensures others { (k : ℕ) → (k < to) ⊎ (to + count ≤ k) → get_or memory.new k (pos 0) ≡ get_or memory.old k (pos 0) }
{
    for i in 0..count {
        memory[to + i] = memory[from + i];
    }
}

/// Sets `count` cells from a place on to a value.
pub fn fill_cells(memory: &mut [i32], from: usize, count: usize, value: i32)
    requires { from + count ≤ length memory.old }
    ensures values { (i : ℕ) → i < count → get_or memory.new (from + i) (pos 0) ≡ value }
    ensures others { (k : ℕ) → (k < from) ⊎ (from + count ≤ k) → get_or memory.new k (pos 0) ≡ get_or memory.old k (pos 0) }
{
    for i in 0..count {
        memory[from + i] = value;
    }
}
