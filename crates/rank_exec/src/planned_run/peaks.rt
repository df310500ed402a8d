// The room that an accepted list of steps needs.
ghost use Rattle.std.specs.Prelude.{◌≡◌, ◌<◌, ◌≤◌, ℕ, true, min};
ghost use Rattle.schedule_steps.specs.Outline.{Outline};
ghost use Rattle.schedule_steps.specs.Peaks.{open_step, mail_step, greatest};
ghost use Rattle.schedule_steps.specs.Standard.{standard};
ghost use Rattle.rank_exec.specs.Peaks.{CellsAreExported, PeaksAreRoom};
ghost use Rattle.rank_exec.specs.Room.{item_cells};

/// A law: the cells that the checker counts for a message are those that the sender exports, and the peak of an
/// accepted list is room for it.
pub fn peaks_are_room()
    ensures cells { CellsAreExported }
    ensures room { PeaksAreRoom }
{
    lemmas::numbers_are_listed();
    mesh_decl::declarations_hold();
    local_mesh::halo_lists::imports_are_of_others();
    local_mesh::owned_come_first();
    local_mesh::originals_are_distinct();
    local_mesh::originals_are_held();
}

/// A law: the standard order never has more elements open than are begun together, nor more than a rank has of one
/// item; and no more cells are under way than the messages of one item have.
pub fn standard_has_room()
    ensures frames { (o : Outline) (g m : ℕ) → 0 < g
        → ((k r : ℕ) → k < o.items → o.is_free k ≡ true → r < o.ranks → min g (o.count k r) ≤ m)
        → greatest open_step 0 (standard o g) ≤ m }
    ensures mail { (o : Outline) (g m : ℕ) (cells : ℕ → ℕ → ℕ → ℕ)
        → ((k : ℕ) → k < o.items → o.is_free k ≡ true → item_cells o cells k ≤ m)
        → greatest (mail_step cells) 0 (standard o g) ≤ m }
{
    step_orders::runs_are_windows();
}
