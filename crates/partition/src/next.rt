// Which set gets owners next.
ghost use Rattle.std.specs.Prelude.{◌≡◌, ℕ, false, not, length, slice_index_or, IfSome, IfNone};
ghost use Rattle.mesh_decl.specs.Mesh.{map_count, set_count};
ghost use Rattle.lemmas.specs.Below.{any_below};
ghost use Rattle.partition.specs.Derive.{IsFirst, AreTargetsNext, AreNamesNext, leads_to_known, leads_from_known, can_follow_targets};
ghost use Rattle.partition.specs.Derive.{can_follow_names};

use mesh_decl::Mesh;

// The first map that leads from a set to a set with owners.
fn map_to_known(mesh: &Mesh, known: &[bool], set: u32) -> Option<u32>
    requires { length known.now ≡ set_count mesh.now }
    ensures some { IfSome result (IsFirst (map_count mesh.now) (leads_to_known mesh.now (λ s. slice_index_or known.now s false) set)) }
    ensures none { IfNone result (any_below (map_count mesh.now) (leads_to_known mesh.now (λ s. slice_index_or known.now s false) set)
        ≡ false) }
{
    for map in 0..mesh.map_count() {
        let (from, to, _) = mesh.map_ends(map);
        if from == set && known[to as usize] {
            return Some(map);
        }
    }
    None
}

// The first map that leads to a set from a set with owners.
fn map_from_known(mesh: &Mesh, known: &[bool], set: u32) -> Option<u32>
    requires { length known.now ≡ set_count mesh.now }
    ensures some { IfSome result (IsFirst (map_count mesh.now) (leads_from_known mesh.now (λ s. slice_index_or known.now s false) set)) }
    ensures none { IfNone result (any_below (map_count mesh.now) (leads_from_known mesh.now (λ s. slice_index_or known.now s false) set)
        ≡ false) }
{
    for map in 0..mesh.map_count() {
        let (from, to, _) = mesh.map_ends(map);
        if to == set && known[from as usize] {
            return Some(map);
        }
    }
    None
}

/// The first set without owners from which a map leads to a set with owners, and the first such map.
pub fn next_by_targets(mesh: &Mesh, known: &[bool]) -> Option<(u32, u32)>
    requires { length known.now ≡ set_count mesh.now }
    ensures some { IfSome result (λ p. AreTargetsNext mesh.now (λ s. slice_index_or known.now s false) p.0 p.1) }
    ensures none { IfNone result (any_below (set_count mesh.now) (can_follow_targets mesh.now (λ s. slice_index_or known.now s false))
        ≡ false) }
{
    for set in 0..mesh.set_count() {
        if !known[set as usize] {
            if let Some(map) = map_to_known(mesh, known, set) {
                return Some((set, map));
            }
        }
    }
    None
}

/// The first set without owners to which a map leads from a set with owners, and the first such map.
pub fn next_by_names(mesh: &Mesh, known: &[bool]) -> Option<(u32, u32)>
    requires { length known.now ≡ set_count mesh.now }
    ensures some { IfSome result (λ p. AreNamesNext mesh.now (λ s. slice_index_or known.now s false) p.0 p.1) }
    ensures none { IfNone result (any_below (set_count mesh.now) (can_follow_names mesh.now (λ s. slice_index_or known.now s false))
        ≡ false) }
{
    for set in 0..mesh.set_count() {
        if !known[set as usize] {
            if let Some(map) = map_from_known(mesh, known, set) {
                return Some((set, map));
            }
        }
    }
    None
}

/// The first set without owners.
pub fn next_by_blocks(mesh: &Mesh, known: &[bool]) -> Option<u32>
    requires { length known.now ≡ set_count mesh.now }
    ensures some { IfSome result (IsFirst (set_count mesh.now) (λ s. not (slice_index_or known.now s false))) }
    ensures none { IfNone result (any_below (set_count mesh.now) (λ s. not (slice_index_or known.now s false)) ≡ false) }
{
    for set in 0..mesh.set_count() {
        if !known[set as usize] {
            return Some(set);
        }
    }
    None
}
