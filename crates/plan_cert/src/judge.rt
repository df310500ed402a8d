// The judgement of a whole plan text.
ghost use Rattle.std.specs.Prelude.{◌≡◌, ◌≤◌, ◌<◌, ◌+◌, ◌^◌, IfOk, IfErr, length};
ghost use Rattle.bound_program.specs.Values.{bound_of};
ghost use Rattle.bound_program.specs.Fits.{Fits};
ghost use Rattle.loop_plan.specs.Values.{plan_of};
ghost use Rattle.loop_plan.specs.Distributed.{Distributed};
ghost use Rattle.loop_plan.specs.StepCounts.{program_steps, max_steps};
ghost use Rattle.plan_cert.specs.Certified.{Certified};
ghost use Rattle.plan_cert.specs.Judged.{IsRefusedBy};

use crate::lines::{take_end, take_halos, take_header, take_items, take_sizes};
use crate::sites::take_sites;
use crate::types::CertRefusal;
use bound_program::Bound;
use local_mesh::RankMesh;
use local_mesh::halo_lists::Halos;
use loop_plan::{MAX_STEPS, Plan, number_of_steps, planned_items};
use op_num::texts::line_texts::Lines;
use std::alloc::Global;

/// The plan that the plan text `bytes` gives for a program on these ranks: its block size and its colours are those of
/// the text, whoever chose them. All else in the text must be what `write_plan` writes for the program.
///
/// `bound` is the bound program, `ranks` has the local meshes of its mesh by rank, and `halos` are the mesh's halos by
/// the same owners. Lines are counted in `u32`, so the text has fewer than 2 ^ 32 - 1 bytes.
///
/// The first line that isn't as awaited is refused, and by the first cause in one line, in this order: `Header`,
/// `Ranks`, `Halo`, `Site`, `Item`, `BlockConflict`, `InnerConflict`, `End`. `TooManySteps` comes only where the text
/// gives a plan, and that one has more than `MAX_STEPS` steps. It fails otherwise only for want of memory, also where
/// 64 bits can't count the steps, or 32 bits the loops.
pub fn certify(
    alloc: Global,
    bytes: &[u8],
    bound: &Bound,
    ranks: &[RankMesh],
    halos: &Halos,
) -> Result<Plan, CertRefusal>
    requires bytes { length bytes.now + 1 < 2 ^ 32 }
    requires fits { Fits (bound_of bound.now) }
    requires ranks { Distributed (bound_of bound.now).mesh halos.now ranks.now }
    ensures plan { IfOk result (λ p. Certified (bound_of bound.now) ranks.now bytes.now (plan_of p)) }
    ensures steps { IfOk result (λ p. p.steps ≡ program_steps (bound_of bound.now) ranks.now) }
    ensures few { IfOk result (λ p. p.steps ≤ max_steps) }
    ensures refused { IfErr result (IsRefusedBy (bound_of bound.now) ranks.now bytes.now) }
{
    bound.mesh.is_in_range();
    if bound.sites.len() > u32::MAX as usize {
        return Err(CertRefusal::OutOfMemory);
    }
    let mut lines = Lines::new(bytes);
    take_header(&mut lines)?;
    let block = take_sizes(alloc, &mut lines, ranks.len() as u32)?;
    take_halos(alloc, &mut lines, bound, ranks)?;
    let sites = take_sites(alloc, &mut lines, bound, ranks, block)?;
    let items = planned_items(alloc, bound, ranks, halos)?;
    take_items(alloc, &mut lines, bound, ranks, &items)?;
    take_end(&mut lines)?;
    let steps = number_of_steps(alloc, bound, ranks, &items)?;
    if MAX_STEPS < steps {
        return Err(CertRefusal::TooManySteps { steps });
    }
    Ok(Plan {
        ranks: ranks.len() as u32,
        block,
        sites,
        items,
        steps,
    })
}
