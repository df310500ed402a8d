// Laws of meshes.
ghost use Rattle.std.specs.Prelude.{◌≡◌, ◌+◌, ◌*◌, ℕ, List, Option, Result, Ok, length};
ghost use Rattle.gmsh_mesh.specs.Sides.{nodes, sides};
ghost use Rattle.gmsh_mesh.specs.declared.choice.Dimension.{Dimension};
ghost use Rattle.gmsh_mesh.specs.declared.refusal.GmshRefusal.{GmshRefusal};
ghost use Rattle.gmsh_mesh.specs.Mesh.{Arrays};
ghost use Rattle.gmsh_mesh.specs.Outcome.{ArraysAre, Conversion, Comes};

use crate::mesh_faces::sides_are_of_faces;
use gmsh_text::elements_are_whole;

/// A law: the bytes of a Gmsh file spell one mesh at most, and come to one outcome.
pub fn one_outcome()
    ensures mesh { (bytes : List ℕ) (dim : Option Dimension) (scale : ℕ) (a b : Result Arrays GmshRefusal)
        → ArraysAre bytes dim scale a → ArraysAre bytes dim scale b → a ≡ b }
    ensures texts { (bytes : List ℕ) (dim : Option Dimension) (scale : ℕ) (a b : Result Conversion GmshRefusal)
        → Comes bytes dim scale a → Comes bytes dim scale b → a ≡ b }
{}

/// A law: twice the faces between two cells and the faces of the boundary are all sides of all cells. `fcell` has two
/// cells for each of the former, and `bcell` one for each of the latter; `cell` has the nodes of each cell.
pub fn faces_are_all_sides()
    ensures { (bytes : List ℕ) (dim : Option Dimension) (scale : ℕ) (m : Arrays) → ArraysAre bytes dim scale (Ok m)
        → (length m.faces.fcell + length m.faces.bcell) * nodes m.shape ≡ length m.cell * sides m.shape }
{
    elements_are_whole();
    sides_are_of_faces();
}
