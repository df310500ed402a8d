// The first loop of a source that gives a judgement.
ghost use Rattle.std.specs.Prelude.{◌≡◌, ◌↔◌, ℕ, List, map, length, option_map, IfOk, IsTrue};
ghost use Rattle.std.specs.List.{find};
ghost use Rattle.std.specs.Str.{bytes_eq};
ghost use Rattle.kernel_model.specs.Resolved.{IsResolved, IsResolvedProgram};
ghost use Rattle.kernel_model.specs.declared.types.kernels.RKernel.{RKernel as Kernel};
ghost use Rattle.kernel_model.specs.Obeys.{Mode as KernelMode};
ghost use Rattle.access_check.specs.Modes.{model_of, AreSmall};
ghost use Rattle.access_check.specs.Refusals.{Refuses};
ghost use Rattle.explanations.specs.Calls.{call_of};
ghost use Rattle.explanations.specs.First.{kernel_named, IsRefusedSo, SaysSo, GivesBy, IsGiving, IsFirst};

use crate::error_loops::calls::LoopCall;
use crate::error_loops::judgements::Judgement;
use crate::error_loops::modes::modes_by;
use crate::error_loops::placed::place_of;
use access_check::{AccessRefusal, Mode, are_small, check};
use kernel_model::types::{RKernel, Resolved};
use op_num::OutOfMemory;
use std::alloc::{AllocError, Global};

/// A loop, and its kernel.
#[derive(Drop)]
pub struct First<'a> {
    pub call: &'a LoopCall<'a>,
    pub kernel: &'a RKernel,
}

// The kernel of this name, if there is one.
fn kernel_named<'a>(kernels: &'a [RKernel], name: &[u8]) -> Option<&'a RKernel>
    ensures { option_map (λ k. k.now) result ≡ kernel_named kernels.now name.now }
{
    kernels.iter().find(|kernel| kernel.name.bytes() == name)
}

// Whether a kernel can be judged by these modes.
fn can_be_judged(kernel: &RKernel, modes: &[Mode]) -> bool
    ensures { IsTrue result ↔ ((length modes.now ≡ kernel.now.params) × AreSmall modes.now) }
{
    modes.len() == kernel.params as usize && are_small(modes)
}

// The judgement that a refusal of a kernel is. An error is want of memory.
fn judgement_of(refusal: AccessRefusal) -> Result<Judgement, OutOfMemory>
    ensures { (k : Kernel) (modes : List KernelMode) → Refuses k modes refusal → IfOk result (λ j. IsRefusedSo j k modes) }
{
    let (number, at) = match refusal {
        AccessRefusal::WritesRead { at } => (1, at),
        AccessRefusal::ReadsInc { at } => (2, at),
        AccessRefusal::IncNotSum { at } => (3, at),
        AccessRefusal::ReadsUnwritten { at } => (4, at),
        AccessRefusal::NotAllWritten { at } => (5, at),
        AccessRefusal::WriteIndexNotStatic { at } => (6, at),
        AccessRefusal::LiteralIndexOut { at } => (7, at),
        AccessRefusal::MinMaxForm { at } => (8, at),
        AccessRefusal::OutOfMemory => return Err(AllocError),
    };
    Ok(Judgement {
        number,
        at: place_of(at),
    })
}

// Whether two judgements are the same.
fn are_same(said: Judgement, judgement: Judgement) -> bool
    ensures { IsTrue result ↔ (said ≡ judgement) }
{
    said == judgement
}

// Whether a refusal of a kernel is this judgement.
fn says_so(refusal: AccessRefusal, judgement: Judgement) -> Result<bool, OutOfMemory>
    ensures { (k : Kernel) (modes : List KernelMode) → Refuses k modes refusal → IfOk result (SaysSo judgement k modes) }
{
    kernel_model::rules_are_broken();
    let said = judgement_of(refusal)?;
    Ok(are_same(said, judgement))
}

// Whether a kernel that is used so gives the judgement.
fn is_refused_so(
    alloc: Global,
    kernel: &RKernel,
    modes: &[Mode],
    judgement: Judgement,
) -> Result<bool, OutOfMemory>
    requires resolved { (consts : ℕ) × IsResolved consts kernel.now }
    requires judged { (length modes.now ≡ kernel.now.params) × AreSmall modes.now }
    ensures { IfOk result (SaysSo judgement kernel.now (map model_of modes.now)) }
{
    kernel_model::rules_are_broken();
    match check(alloc, kernel, modes) {
        Ok(()) => Ok(false),
        Err(refusal) => says_so(refusal, judgement),
    }
}

// Whether a loop with this kernel gives the judgement.
fn gives_by(
    alloc: Global,
    kernel: &RKernel,
    call: &LoopCall<'_>,
    judgement: Judgement,
) -> Result<bool, OutOfMemory>
    requires { (consts : ℕ) × IsResolved consts kernel.now }
    ensures { IfOk result (λ b. IsTrue b ↔ GivesBy judgement kernel.now (call_of call.now)) }
{
    let modes = modes_by(alloc, call.args)?;
    if can_be_judged(kernel, &modes) {
        is_refused_so(alloc, kernel, &modes, judgement)
    } else {
        Ok(false)
    }
}

// The kernel of a loop, where the loop gives the judgement.
fn giving<'a>(
    alloc: Global,
    types: &'a Resolved,
    call: &LoopCall<'_>,
    judgement: Judgement,
) -> Result<Option<&'a RKernel>, OutOfMemory>
    requires { IsResolvedProgram types.now }
    ensures { IfOk result (λ k. IsGiving types.now.kernels.items judgement (call_of call.now) (option_map (λ x. x.now) k)) }
{
    let kernels = types.kernels.as_slice();
    let Some(kernel) = kernel_named(kernels, call.kernel.name.bytes()) else {
        return Ok(None);
    };
    if gives_by(alloc, kernel, call, judgement)? {
        Ok(Some(kernel))
    } else {
        Ok(None)
    }
}

/// The first of these loops that gives the judgement, with its kernel of these, or none. An error is want of memory.
pub fn first_giving<'a>(
    alloc: Global,
    types: &'a Resolved,
    calls: &'a [LoopCall<'a>],
    judgement: Judgement,
) -> Result<Option<First<'a>>, OutOfMemory>
    requires { IsResolvedProgram types.now }
    ensures { IfOk result (λ f. IsFirst types.now.kernels.items judgement (map call_of calls.now)
        (option_map (λ x. (call_of x.call.now, x.kernel.now)) f)) }
{
    for call in calls {
        match giving(alloc, types, call, judgement)? {
            Some(kernel) => return Ok(Some(First { call, kernel })),
            None => {}
        }
    }
    Ok(None)
}
