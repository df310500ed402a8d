// New numbers, as they are asked for.
ghost use Rattle.std.specs.Prelude.{Ok, Err, IfOk, IfErr};
ghost use Rattle.mesh_decl.specs.Owners.{ArePerms};
ghost use Rattle.partition.specs.Parts.{NumbersRefusal as Refusal, name_of, UnnumberedWhere, IsUnnumbered};
ghost use Rattle.partition.specs.Judgements.{NumbersAre};

use crate::distribute::types::NumbersRefusal;
use mesh_decl::{Mesh, Perms};
use renumber::{cuthill_mckee, identity};
use std::alloc::Global;

/// New numbers for the elements of a mesh: each element keeps its number where no map is named, and else those of
/// Cuthill and McKee, reversed, by the first map of that name. It is refused exactly where no map has the name, and
/// fails otherwise only for want of memory.
pub fn numbers_by<'a>(
    alloc: Global,
    mesh: &Mesh,
    map: Option<&'a [u8]>,
) -> Result<Perms, NumbersRefusal<'a>>
    ensures ok { IfOk result (λ p. NumbersAre mesh.now (name_of map.entry) (Ok p)) }
    ensures fit { IfOk result (ArePerms mesh.now) }
    // A refusal is so.
    ensures refused { IfErr result (UnnumberedWhere (λ r. NumbersAre mesh.now (name_of map.entry) (Err r))) }
    // And one that is so is given, unless memory runs out.
    ensures refuses { (r : Refusal) → NumbersAre mesh.now (name_of map.entry) (Err r) → IsUnnumbered result r }
{
    let Some(name) = map else {
        return Ok(identity(alloc, mesh)?);
    };
    match mesh.map_named(name) {
        Some(map) => Ok(cuthill_mckee(alloc, mesh, map)?),
        None => Err(NumbersRefusal::UnknownMap(name)),
    }
}
