// The texts of the sample.
ghost use Rattle.std.specs.Prelude.{◌≡◌, ◌<◌, ◌^◌, ◌⊎◌, ◌≤◌, ◌↔◌, length, IfOk, Ok, Err};
ghost use Rattle.mesh_decl.specs.Reading.{Reads};
ghost use Rattle.mesh_decl.specs.declared.text.entry.TheConstants.{MESH_BYTES};
ghost use Rattle.mesh_gen.specs.Sample.{mesh_entries, sample_mesh, sample_source};

use crate::entries::grid_entries;
use crate::places::MAX_SIDE;
use crate::refusal::{Sample, SampleRefusal};
use crate::source::SOURCE;
use mesh_decl::text::{Form, write_mesh};
use std::alloc::Global;

/// The sample on a grid of `n` times `n` cells: its source, which is the same for every size, and the canonical mesh
/// text of the grid.
///
/// # Errors
/// `SizeRange` exactly where `n` is outside 1 to [`MAX_SIDE`]; `OutOfMemory` where memory runs out.
pub fn sample(alloc: Global, n: u32) -> Result<Sample, SampleRefusal>
    ensures source { IfOk result (λ s. s.source.items ≡ sample_source) }
    ensures mesh { IfOk result (λ s. s.mesh.items ≡ sample_mesh n) }
    // The source is short. `read_mesh` reads the entries from the mesh text, which is no longer than a mesh file may
    // be.
    ensures short_source { IfOk result (λ s. length s.source.items < 2 ^ 16) }
    ensures read { IfOk result (λ s. Reads s.mesh.items (Ok (mesh_entries n))) }
    ensures short { IfOk result (λ s. length s.mesh.items ≤ MESH_BYTES) }
    ensures outside { (result ≡ Err SampleRefusal.SizeRange) ↔ ((n ≡ 0) ⊎ (MAX_SIDE < n)) }
{
    if n == 0 || n > MAX_SIDE {
        return Err(SampleRefusal::SizeRange);
    }
    let entries = grid_entries(alloc, n)?;
    let mesh = write_mesh(alloc, &entries, Form::One)?;
    let source = Vec::from_slice(alloc, SOURCE.as_bytes())?;
    Ok(Sample { source, mesh })
}
