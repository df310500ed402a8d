// What the places of a local mesh are.
ghost use Rattle.std.specs.Prelude.{◌≡◌, ℕ, ◌<◌, ◌≤◌, ◌+◌, ◌*◌, ◌↔◌, true, List, length, slice_index, Contains};
ghost use Rattle.mesh_decl.specs.Mesh.{MeshValue, dat_count, dat_set, dat_dim, set_size};
ghost use Rattle.mesh_decl.specs.declared.owners.Owners.{Owners};
ghost use Rattle.mesh_decl.specs.declared.owners.Perms.{Perms};
ghost use Rattle.mesh_decl.specs.Owners.{IsNumbering, perm_in};
ghost use Rattle.local_mesh.specs.Halo.{has_copy};
ghost use Rattle.local_mesh.specs.declared.types.LocalSet.{LocalSet};
ghost use Rattle.local_mesh.specs.LocalMesh.{originals_in, AreBases, IsLocalSet};

/// Different dats, different local elements of one, or different values of one element, have no cell in common.
pub fn places_are_disjoint()
    ensures { (g : MeshValue) (sets : List LocalSet) (starts : List ℕ) (total : ℕ) → AreBases g sets starts total → (d l i e k j : ℕ)
        → d < dat_count g → l < length (originals_in sets (dat_set g d)) → i < dat_dim g d → e < dat_count g
        → k < length (originals_in sets (dat_set g e)) → j < dat_dim g e
        → slice_index starts d + l * dat_dim g d + i ≡ slice_index starts e + k * dat_dim g e + j → (d ≡ e) × (l ≡ k) × (i ≡ j) }
{}

/// The cells of each local element of each dat lie in the buffer.
pub fn places_fit()
    ensures { (g : MeshValue) (sets : List LocalSet) (starts : List ℕ) (total : ℕ) → AreBases g sets starts total → (d l : ℕ)
        → d < dat_count g → l < length (originals_in sets (dat_set g d)) → slice_index starts d + (l + 1) * dat_dim g d ≤ total }
{}

/// Each cell of the buffer is a value of a local element of a dat.
pub fn cells_are_of_copies()
    ensures { (g : MeshValue) (sets : List LocalSet) (starts : List ℕ) (total : ℕ) → AreBases g sets starts total → (c : ℕ) → c < total
        → (d : ℕ) × (l : ℕ) × (i : ℕ) × (d < dat_count g) × (l < length (originals_in sets (dat_set g d))) × (i < dat_dim g d)
        × (slice_index starts d + l * dat_dim g d + i ≡ c) }
{}

/// The original numbers that a rank has of a set are those of the elements that it owns or imports.
pub fn originals_are_copies()
    ensures { (g : MeshValue) (o : Owners) (p : Perms) (s r : ℕ) (l : LocalSet) → IsNumbering (set_size g s) (perm_in p s)
        → IsLocalSet g o p s r l → (x : ℕ) → Contains l.original x ↔ ((x < set_size g s) × (has_copy g o s x r ≡ true)) }
{}
