// The steps from a mesh to local meshes, with the time of each.
ghost use Rattle.std.specs.Prelude.{◌<◌, ◌≤◌};

use anyhow::Error;
use local_mesh::halo_lists::halos;
use local_mesh::localise;
use mesh_decl::Mesh;
use partition::{bisect, block, grow};
use renumber::cuthill_mckee;
use std::rt::Clock;
use std::time::Instant;

// A line with the milliseconds since `from`, if times are wanted; the time now.
fn line(rt: &HostRuntime, timed: bool, step: &str, from: Instant) -> Result<Instant, Error> {
    let spent = from.elapsed(rt)?;
    if timed {
        println!(rt; "{step} {} ms", spent.as_millis())?;
    }
    Ok(Instant::now(rt)?)
}

/// Makes owners by blocks, by growth, and by the values of the first dat, the renumbering of Cuthill and McKee, and the
/// halos and local meshes of the owners by blocks, and prints what was made.
pub fn run(rt: &HostRuntime, mesh: &Mesh, ranks: u32, timed: bool) -> Result<(), Error>
    requires some_rank { 0 < ranks }
    requires few_ranks { ranks ≤ 64 }
{
    let alloc = rt.alloc();
    if mesh.map_count() == 0 {
        return Ok(());
    }
    let at = Instant::now(rt)?;
    let owners = block(alloc, mesh, ranks)?;
    let at = line(rt, timed, "block", at)?;
    let _grown = grow(alloc, mesh, ranks, 0)?;
    let at = line(rt, timed, "grow", at)?;
    if mesh.dat_count() > 0 {
        let _halves = bisect(alloc, mesh, ranks, 0)?;
    }
    let at = line(rt, timed, "bisect", at)?;
    let perms = cuthill_mckee(alloc, mesh, 0)?;
    let at = line(rt, timed, "cuthill_mckee", at)?;
    let halos = halos(alloc, mesh, &owners)?;
    let at = line(rt, timed, "halos", at)?;
    let meshes = localise(alloc, mesh, &owners, &halos, &perms)?;
    let _ = line(rt, timed, "localise", at)?;
    for (rank, local) in meshes.iter().enumerate() {
        for (set, here) in local.sets.iter().enumerate() {
            let (own, exec, nonexec) = (here.own, here.exec, here.nonexec);
            println!(rt;
                "rank {rank} set {set}: owns {own}, executes {exec} more, reads {nonexec}"
            )?;
        }
    }
    Ok(())
}
