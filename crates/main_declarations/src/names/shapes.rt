// What a mesh has under a number; 0 where it has nothing there.

ghost use Rattle.std.specs.Prelude.{◌≡◌};
ghost use Rattle.mesh_decl.specs.Mesh.{set_size, dat_set, dat_dim, map_from, map_to, map_dim};

use mesh_decl::Mesh;

/// How many elements a set has; 0 where there is none.
#[tactic(auto, using(crate::proofs::names::Sizes::size_past))]
pub fn set_size(mesh: &Mesh, set: u32) -> u32
    ensures { result ≡ set_size mesh.now set }
{
    if set < mesh.set_count() {
        mesh.set_size(set)
    } else {
        0
    }
}

/// The set of a dat and its dim; 0 where there is none.
#[tactic(auto, using(crate::proofs::names::Sizes::dat_set_past, crate::proofs::names::Sizes::dat_dim_past))]
pub fn dat_shape(mesh: &Mesh, dat: u32) -> (u32, u32)
    ensures { result ≡ (dat_set mesh.now dat, dat_dim mesh.now dat) }
{
    if dat < mesh.dat_count() {
        mesh.dat_shape(dat)
    } else {
        (0, 0)
    }
}

/// The sets of a map and its dim; 0 where there is none.
#[tactic(auto, using(crate::proofs::names::Sizes::map_from_past, crate::proofs::names::Sizes::map_to_past, crate::proofs::names::Sizes::map_dim_past))]
pub fn map_ends(mesh: &Mesh, map: u32) -> (u32, u32, u32)
    ensures { result ≡ (map_from mesh.now map, map_to mesh.now map, map_dim mesh.now map) }
{
    if map < mesh.map_count() {
        mesh.map_ends(map)
    } else {
        (0, 0, 0)
    }
}
