// What is so of every mesh.
ghost use Rattle.std.specs.Prelude.{ℕ, ◌<◌};
ghost use Rattle.mesh_decl.specs.Mesh.{MeshValue, IsMesh, IsMapAt, IsDatAt, map_count, dat_count};

/// A law: what is so of the maps and dats of a mesh by their numbers.
pub fn declarations_hold()
    ensures maps { (g : MeshValue) → IsMesh g → (m : ℕ) → m < map_count g → IsMapAt g m }
    ensures dats { (g : MeshValue) → IsMesh g → (d : ℕ) → d < dat_count g → IsDatAt g d }
{}
