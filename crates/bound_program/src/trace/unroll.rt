// What `main` unrolls to.

ghost use Rattle.std.specs.Prelude.{◌≡◌, ◌≤◌, ◌+◌, ℤ, pos, ◌++◌, [], ◌∷◌, map, suc, ◌≤ℤ◌, ◌<ℤ◌, ◌+ℤ◌, slice_index_or, OnOk, IfErr};
ghost use Rattle.bound_program.specs.Values.{item_of, site_of, ItemValue, ActValue, Host, Exit, no_site};
ghost use Rattle.bound_program.specs.Classes.{is_reducing, is_reduced, reduces};
ghost use Rattle.bound_program.specs.Limits.{max_trace};
ghost use Rattle.bound_program.specs.Trace.{Event, Does, known, number, turns, turns_left, items_of, after, events, main_events, tells};
ghost use Rattle.bound_program.specs.Limited.{unrolled};
ghost use Rattle.bound_program.specs.Unrolling.{asked_of, step_of, goes_by, loop_form, form_events, seen, Leaves, Gives};

use crate::refusals::BindRefusal;
use crate::trace::host_values::host_value;
use crate::trace::naming::told_act;
use crate::trace::steps::{Asked, Step, Told, Unrolled};
use crate::{Act, Arg, Class, Item, MAX_TRACE, Site, ToldAct};
use mesh_decl::Access;
use op_num::OutOfMemory;
use std::alloc::Global;

/// How a `for` goes on: its bound faults, is reached, or isn't.
#[derive(Clone, Copy, PartialEq, Eq, Debug)]
pub enum Goes {
    Stops,
    Ends,
    On,
}

fn is_merged(access: Access) -> bool
    ensures { result ≡ is_reducing access }
{
    matches!(access, Access::Inc | Access::Min | Access::Max)
}

fn is_reduced_arg(arg: Arg) -> bool
    ensures { result ≡ is_reduced arg }
{
    match arg {
        Arg::Dat { .. } => false,
        Arg::Global { access, .. } => is_merged(access),
    }
}

// Whether a global of the loop merges amounts.
fn has_reduction(args: &[Arg]) -> bool
    ensures { result ≡ reduces args.now }
{
    for arg in args {
        if is_reduced_arg(*arg) {
            return true;
        }
    }
    false
}

// The value of an expression that must be known, where it doesn't fault.
fn number_of(e: &Asked, told: &[i32]) -> Option<i32>
    ensures { result ≡ number told.now (asked_of e.now) }
{
    match host_value(&e.value, told, &[]) {
        Ok(z) => Some(z),
        Err(_) => None,
    }
}

// One item more.
fn push(out: &mut Unrolled, item: Item) -> Result<(), BindRefusal>
    ensures leaves { Leaves out.old (Event.Does (item_of item) ∷ []) result out.new }
    ensures fewer { out.new.left ≤ out.old.left }
{
    if out.left == 0 {
        return Err(BindRefusal::TraceTooLong);
    }
    out.left -= 1;
    out.items.push(item)?;
    Ok(())
}

/// A number that is known before the run.
#[derive(Clone, Copy, PartialEq, Eq, Debug)]
pub struct Known {
    pub value: i32,
}

/// How a loop runs.
#[derive(Clone, Copy, PartialEq, Eq, Debug)]
pub enum LoopForm {
    Ordered,
    Free,
    /// Free, with globals to merge behind it.
    Reducing,
}

fn form_of(site: &Site) -> LoopForm
    ensures { result ≡ loop_form (site_of site.now) }
{
    match site.class {
        Class::Ordered => LoopForm::Ordered,
        Class::Free => {
            if has_reduction(&site.args) {
                LoopForm::Reducing
            } else {
                LoopForm::Free
            }
        }
    }
}

// The form of the loop with this number; Free where there is none.
fn form_at(sites: &[Site], n: usize) -> LoopForm
    ensures { result ≡ loop_form (slice_index_or (map site_of sites.now) n no_site) }
{
    if n < sites.len() {
        form_of(&sites[n])
    } else {
        LoopForm::Free
    }
}

// The items of a loop.
fn push_loop(out: &mut Unrolled, site: u32, form: LoopForm) -> Result<(), BindRefusal>
    ensures leaves { Leaves out.old (form_events site form) result out.new }
    ensures fewer { out.new.left ≤ out.old.left }
{
    match form {
        LoopForm::Ordered => push(out, Item::Ordered { site }),
        LoopForm::Free => push(out, Item::Free { site }),
        LoopForm::Reducing => {
            push(out, Item::Free { site })?;
            push(out, Item::Reduce { site })
        }
    }
}

// The value of a variable, where there is one.
fn tell(out: &mut Unrolled, var: Option<u32>, known: &Known) -> Result<(), BindRefusal>
    ensures leaves { Leaves out.old (tells var known.now.value) result out.new }
    ensures left { out.new.left ≡ out.old.left }
{
    if let Some(var) = var {
        out.values.push(Told {
            var,
            value: known.value,
        })?;
    }
    Ok(())
}

fn not_static(e: &Asked) -> BindRefusal
    ensures { result ≡ BindRefusal.ControlNotStatic e.now.at }
{
    BindRefusal::ControlNotStatic { at: e.at }
}

// One turn more.
fn turn(out: &mut Unrolled) -> Result<(), BindRefusal>
    ensures ok { OnOk result ((out.old.left ≡ suc out.new.left) × (seen out.new ≡ seen out.old)) }
    ensures full { IfErr result (λ e. (e ≡ BindRefusal.TraceTooLong) × (out.old.left ≡ 0)) }
{
    if out.left == 0 {
        return Err(BindRefusal::TraceTooLong);
    }
    out.left -= 1;
    Ok(())
}

// Whether a turn follows.
fn tested(told: &[i32], now: &Known, to: &Asked) -> Goes
    ensures is { result ≡ goes_by (number told.now (asked_of to.now)) now.now.value }
    ensures room { result ≡ Goes.On → now.now.value <ℤ pos 2147483647 }
    ensures within { now.now.value ≤ℤ pos 2147483647 }
{
    let i = now.value;
    match number_of(to, told) {
        None => Goes::Stops,
        Some(past) => { if i < past { Goes::On } else { Goes::Ends } }
    }
}

fn next(now: &Known) -> Known
    requires { now.now.value <ℤ pos 2147483647 }
    ensures { result ≡ record { value = now.now.value +ℤ pos 1 } }
{
    Known {
        value: now.value + 1,
    }
}

// One value more is known.
fn know(told: &mut Vec<i32>, now: &Known) -> Result<(), OutOfMemory>
    ensures { OnOk result (told.new.items ≡ told.old.items ++ now.now.value ∷ []) }
{
    told.push(now.value)?;
    Ok(())
}

/// What a step of `main` unrolls to, behind what `out` holds. `told` holds the values of the names that are known
/// there.
#[cycle(unroll)]
pub fn unroll(
    alloc: Global,
    step: &Step,
    sites: &[Site],
    told: &mut Vec<i32>,
    out: &mut Unrolled,
) -> Result<(), BindRefusal>
    ensures leaves { Leaves out.old (events (map site_of sites.now) told.old.items (step_of step.now)) result out.new }
    ensures told { OnOk result (told.new.items ≡ after told.old.items (step_of step.now)) }
    ensures fewer { OnOk result (out.new.left ≤ out.old.left) }
{
    match step {
        Step::Do(named) => {
            let act = told_act(alloc, named, told)?;
            push(out, Item::Host { act })
        }
        Step::Loop(n) => push_loop(out, *n, form_at(sites, *n as usize)),
        Step::Fix { value, var } => match number_of(value, told) {
            None => Err(not_static(value)),
            Some(z) => {
                let known = Known { value: z };
                told.push(z)?;
                tell(out, *var, &known)
            }
        },
        Step::Block(all) => {
            let known = told.len();
            for inner in all {
                unroll(alloc, inner, sites, told, out)?;
            }
            told.truncate(known);
            Ok(())
        }
        Step::Choose {
            test,
            then,
            otherwise,
        } => match number_of(test, told) {
            None => Err(not_static(test)),
            Some(z) => {
                if z == 0 {
                    unroll_alone(alloc, otherwise, sites, told, out)
                } else {
                    unroll_alone(alloc, then, sites, told, out)
                }
            }
        },
        Step::Repeat { from, to, body } => match number_of(from, told) {
            None => Err(not_static(from)),
            Some(z) => {
                let first = Known { value: z };
                unroll_turns(alloc, first, to, body, sites, told, out)
            }
        },
    }
}

// A step behind which no more is told than before it.
#[cycle(unroll)]
fn unroll_alone(
    alloc: Global,
    step: &Step,
    sites: &[Site],
    told: &mut Vec<i32>,
    out: &mut Unrolled,
) -> Result<(), BindRefusal>
    ensures leaves { Leaves out.old (events (map site_of sites.now) told.old.items (step_of step.now)) result out.new }
    ensures told { OnOk result (told.new.items ≡ told.old.items) }
    ensures fewer { OnOk result (out.new.left ≤ out.old.left) }
{
    let known = told.len();
    unroll(alloc, step, sites, told, out)?;
    told.truncate(known);
    Ok(())
}

// The turns of a `for` from `first` on.
#[cycle(unroll)]
fn unroll_turns(
    alloc: Global,
    first: Known,
    to: &Asked,
    body: &Step,
    sites: &[Site],
    told: &mut Vec<i32>,
    out: &mut Unrolled,
) -> Result<(), BindRefusal>
    ensures leaves { Leaves out.old (turns (λ j. number (told.old.items
        ++ j ∷ []) (asked_of to.now)) (λ j. events (map site_of sites.now) (told.old.items
        ++ j ∷ []) (step_of body.now)) to.now.at (turns_left first.value) first.value) result out.new }
    ensures told { OnOk result (told.new.items ≡ told.old.items) }
    ensures fewer { OnOk result (out.new.left ≤ out.old.left) }
{
    let known = told.len();
    let mut now = first;
    'turns: loop {
        know(told, &now)?;
        match tested(told, &now, to) {
            Goes::Stops => return Err(not_static(to)),
            Goes::Ends => {
                told.truncate(known);
                return Ok(());
            }
            Goes::On => {
                turn(out)?;
                unroll(alloc, body, sites, told, out)?;
                told.truncate(known);
                now = next(&now);
            }
        }
    }
}

// The end of `main`.
fn push_exit(alloc: Global, out: &mut Unrolled) -> Result<(), BindRefusal>
    ensures leaves { Leaves out.old (Does (Host Exit) ∷ []) result out.new }
{
    let act = ToldAct::new(alloc, Act::Exit)?;
    push(out, Item::Host { act })
}

/// What `main` unrolls to, where its body is this block, or the first refusal on the way.
pub fn unroll_main(alloc: Global, body: &Step, sites: &[Site]) -> Result<Unrolled, BindRefusal>
    ensures { Gives result (unrolled max_trace (main_events (map site_of sites.now) (step_of body.now))) }
{
    let mut out = Unrolled {
        items: Vec::new(alloc),
        values: Vec::new(alloc),
        left: MAX_TRACE as usize,
    };
    let mut told = Vec::new(alloc);
    unroll(alloc, body, sites, &mut told, &mut out)?;
    push_exit(alloc, &mut out)?;
    Ok(out)
}
