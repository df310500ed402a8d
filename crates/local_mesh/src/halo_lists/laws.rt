// What the conditions of halos imply.
ghost use Rattle.std.specs.Prelude.{◌≡◌, ◌≢◌, ℕ, Bool, true, ◌<◌, ◌↔◌};
ghost use Rattle.mesh_decl.specs.Mesh.{MeshValue, map_count, set_size, map_from, map_to, map_dim, target};
ghost use Rattle.mesh_decl.specs.declared.owners.Owners.{Owners};
ghost use Rattle.mesh_decl.specs.Owners.{owner_of};
ghost use Rattle.local_mesh.specs.Halo.{has_copy, executes, imports, imports_execute, is_core};
ghost use Rattle.local_mesh.specs.declared.halo_lists.types.Halos.{Halos as TheHalos};
ghost use Rattle.local_mesh.specs.Halos.{AreHalos};
ghost use Rattle.local_mesh.specs.HaloValues.{halos_value};

/// A rank imports an element to execute exactly where it doesn't own it and owns a target of it by some map.
pub fn execute_halo_owns_a_target()
    ensures { (g : MeshValue) (o : Owners) (s x r : ℕ)
        → (imports_execute g o s x r ≡ true)
        ↔ ((owner_of o s x ≢ r)
        × ((m : ℕ) × (i : ℕ) × (m < map_count g) × (map_from g m ≡ s) × (i < map_dim g m)
        × (owner_of o (map_to g m) (target g m x i) ≡ r))) }
{}

/// A rank has a copy of each target of what it executes.
pub fn executed_targets_are_copies()
    ensures { (g : MeshValue) (o : Owners) (m x i r : ℕ) → m < map_count g → x < set_size g (map_from g m)
        → executes g o (map_from g m) x r ≡ true → i < map_dim g m → has_copy g o (map_to g m) (target g m x i) r ≡ true }
{}

/// The owner of a core element owns all its targets.
pub fn core_targets_are_owned()
    ensures { (g : MeshValue) (o : Owners) (s x m i : ℕ) → is_core g o s x ≡ true → m < map_count g → map_from g m ≡ s → i < map_dim g m
        → owner_of o (map_to g m) (target g m x i) ≡ owner_of o s x }
{}

/// A rank imports nothing of its own: who sends and who receives differ.
pub fn imports_are_of_others()
    ensures { (g : MeshValue) (o : Owners) (s x r : ℕ) → imports g o s x r ≡ true → owner_of o s x ≢ r }
{}

/// Owners of a mesh have one halo.
pub fn one_halos()
    ensures { (g : MeshValue) (o : Owners) (a b : TheHalos) → AreHalos g o a → AreHalos g o b → halos_value a ≡ halos_value b }
{}
