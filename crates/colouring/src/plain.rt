// Colours where nothing reduces.
ghost use Rattle.std.specs.Prelude.{◌≡◌, ◌<◌, ℕ, List, Vec, [], IfOk};
ghost use Rattle.std.specs.declared.alloc.Global.{Global as TheGlobal};
ghost use Rattle.mesh_decl.specs.Mesh.{MeshValue};
ghost use Rattle.colouring.specs.Colours.{AreColours};

use crate::block_plan::count;
use crate::types::Colours;
use op_num::OutOfMemory;
use std::alloc::Global;

/// The colours for so many places, in blocks of `size`, where nothing reduces: all have the first one.
pub fn one_colour(alloc: Global, places: u32, size: u32) -> Result<Colours, OutOfMemory>
    requires { 0 < size }
    ensures { IfOk result (λ c. (g : MeshValue) (maps : List (Vec ℕ TheGlobal)) → AreColours g maps [] places size c) }
{
    let blocks = vec![in alloc; 0; count(places, size) as usize]?;
    let inner = vec![in alloc; 0; places as usize]?;
    Ok(Colours { blocks, inner })
}
