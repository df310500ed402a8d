// The windows on dats of an element, where they stand on a rank.

ghost use Rattle.std.specs.Prelude.{◌≡◌, ◌<◌, ◌+◌, ◌*◌, Some, length, vec_capacity};
ghost use Rattle.lemmas.specs.Below.{row};
ghost use Rattle.mesh_decl.specs.Mesh.{map_count, map_dim};
ghost use Rattle.rank_layout.specs.DatWindows.{begins_at, with_span, local_by};

use local_mesh::RankMesh;
use mesh_decl::{Mesh, Via};
use rank_state::Span;

// Whether a span begins at the cell.
fn begins_at(at: usize, spans: &[Span]) -> bool
    ensures { result ≡ begins_at at spans.now }
{
    for span in spans {
        if span.at == at {
            return true;
        }
    }
    false
}

/// One span more, unless one begins where it does.
pub fn push_span(span: Span, spans: &mut Vec<Span>)
    requires { length spans.old.items < vec_capacity spans.old }
    ensures spans { spans.new.items ≡ with_span span spans.old.items }
    ensures room { vec_capacity spans.new ≡ vec_capacity spans.old }
{
    if !begins_at(span.at, spans) {
        spans.push_reserved(span);
    }
}

/// The local targets of a map, element by element.
pub fn targets_of(part: &RankMesh, map: u32) -> &[u32]
    requires { map < length part.now.maps.items }
    ensures { result.now ≡ row part.now.maps.items map }
{
    &part.maps[map as usize]
}

/// The local number of the element to which a map leads from the element at a place.
pub fn local_target(mesh: &Mesh, part: &RankMesh, via: Via, place: u32) -> u32
    requires map { via.map < map_count mesh.now }
    requires has { via.map < length part.now.maps.items }
    requires there { place * map_dim mesh.now via.map + via.index < length (row part.now.maps.items via.map) }
    ensures { result ≡ local_by mesh.now part.now place (Some via) }
{
    let (_, _, dim) = mesh.map_ends(via.map);
    let targets = targets_of(part, via.map);
    let at = place as usize * dim as usize + via.index as usize;
    targets[at]
}
