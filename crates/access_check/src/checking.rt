// The access rules, on a whole kernel.

ghost use Rattle.std.specs.Prelude.{◌≡◌, ◌-◌, ◌<◌, ◌≤◌, ◌⊎◌, ◌&&◌, ℕ, None, length, map, IfOk, IfErr, slice_index_or};
ghost use Rattle.kernel_model.specs.Resolved.{IsResolved, StmtWithin};
ghost use Rattle.kernel_model.specs.Obeys.{KernelObeys};
ghost use Rattle.kernel_model.specs.Walk as model;
ghost use Rattle.kernel_model.specs.Refusals.{opposite, parameter_place};
ghost use Rattle.kernel_model.specs.Walk.{all_below, is_op_write};
ghost use Rattle.op_num.specs.Access.{access_of};
ghost use Rattle.access_check.specs.Modes.{model_of, AreSmall};
ghost use Rattle.access_check.specs.Found.{found_of};
ghost use Rattle.access_check.specs.Refusals.{Refuses, Disobeys};
ghost use Rattle.access_check.specs.States.{has_component};

use crate::components::{Components, is_among, no_components};
use crate::found::{Breach, Rule, with_rule};
use crate::indices::note_indices;
use crate::modes::{Mode, mode_of};
use crate::refusals::{AccessRefusal, refusal_of};
use crate::uses::only_writes;
use crate::walking::walk;
use kernel_model::types::{Pos, RKernel};
use std::alloc::Global;

fn is_whole(covered: &Components, arg: u32, dim: u32) -> bool
    requires arg { dim ≤ 0 ⊎ (arg < 16) }
    requires dim { dim ≤ 64 }
    ensures { result ≡ all_below (has_component covered.now arg) dim }
{
    for i in 0..dim {
        if !is_among(covered, arg, i) {
            return false;
        }
    }
    true
}

fn lacks_some(covered: &Components, arg: u32, mode: Mode) -> bool
    requires arg { mode.dim ≤ 0 ⊎ (arg < 16) }
    requires dim { mode.dim ≤ 64 }
    ensures { result ≡ (is_op_write (access_of mode.access) && opposite (all_below (has_component covered.now arg) mode.dim)) }
{
    only_writes(mode.access) && !is_whole(covered, arg, mode.dim)
}

fn place_of_parameter(kernel: &RKernel, arg: u32) -> Pos
    requires { arg < length kernel.now.body.param_places.items }
    ensures { result ≡ parameter_place kernel.now arg }
{
    kernel.body.param_places[arg as usize]
}

// What the walk finds, where no counter is known yet.
fn found_in(
    kernel: &RKernel,
    modes: &[Mode],
    counters: &mut [Option<i32>],
    named: &mut [bool],
) -> Option<Breach>
    requires params { length kernel.now.body.param_places.items ≡ length modes.now }
    requires modes { AreSmall modes.now }
    requires within { (consts : ℕ) × StmtWithin kernel.now.params (length counters.old) consts kernel.now.body.statement }
    requires unknown { (k : ℕ) → slice_index_or counters.old k None ≡ None }
    ensures { found_of result ≡ model.walk kernel.now (map model_of modes.now) }
{
    note_indices(&kernel.body.statement, named);
    let mut covered = no_components();
    let mut found = None;
    walk(
        &kernel.body.statement,
        modes,
        named,
        counters,
        &mut covered,
        &mut found,
    );
    for a in 0..modes.len() as u32 {
        let broken = lacks_some(&covered, a, mode_of(modes, a));
        found = with_rule(
            found,
            broken,
            Rule::NotAllWritten,
            place_of_parameter(kernel, a),
        );
    }
    found
}

/// Whether the kernel keeps to the accesses of its arguments, one mode for each parameter: if not, the rule that it
/// breaks at the earliest place. There are at most 16 modes, each of a dim of at most 64.
pub fn check(alloc: Global, kernel: &RKernel, modes: &[Mode]) -> Result<(), AccessRefusal>
    requires resolved { (consts : ℕ) × IsResolved consts kernel.now }
    requires params { length modes.now ≡ kernel.now.params }
    requires modes { AreSmall modes.now }
    ensures accepted { IfOk result (λ u. KernelObeys kernel.now (map model_of modes.now)) }
    ensures refused { IfErr result (λ e. Refuses kernel.now (map model_of modes.now) e) }
    ensures disobeys { IfErr result (λ e. Disobeys kernel.now (map model_of modes.now) e) }
{
    kernel_model::walk_finds();
    kernel_model::rules_are_broken();
    let Ok(mut counters) = vec![in alloc; None; kernel.scratch as usize] else {
        return Err(AccessRefusal::OutOfMemory);
    };
    let Ok(mut named) = vec![in alloc; false; kernel.scratch as usize] else {
        return Err(AccessRefusal::OutOfMemory);
    };
    match found_in(kernel, modes, &mut counters, &mut named) {
        None => Ok(()),
        Some(breach) => Err(refusal_of(breach)),
    }
}
