// Declarations of variables of `main`, and the constants that kernels read.

ghost use Rattle.std.specs.Prelude.{◌≡◌, false, length, map, OnOk};
ghost use Rattle.c_tree.specs.View.{expr_of, declr_of};
ghost use Rattle.bound_program.specs.Values.{act_of, Clear};
ghost use Rattle.bound_program.specs.Steps.{Do, followed, one_step};
ghost use Rattle.main_declarations.specs.SoFar.{does, behind};
ghost use Rattle.main_declarations.specs.Variables.{with_fixed, with_fixed_later, with_turning, const_at, with_changing, initializer};
ghost use Rattle.main_declarations.specs.Variables.{judged_declr, judged_declrs};
ghost use Rattle.bound_program.specs.Unrolling.{step_of, steps_of};
ghost use Rattle.main_declarations.specs.Walks.{declared_of, walked};
ghost use Rattle.bound_program.specs.Refusals.{Judges};

use crate::names::{
    Declared, Meaning, Source, Spot, changing, judged_static, judged_value, resolved, unchanging,
    zeros,
};
use bound_program::Act;
use bound_program::refusals::{BindRefusal, place};
use bound_program::trace::Step;
use c_tree::{AssignOp, Declr, Expr, Ident};
use op_num::{Name, OutOfMemory};
use std::alloc::Global;

/// One step more.
#[tactic(auto, using(crate::proofs::WalkTurns::steps_push))]
pub fn add_step(steps: &mut Vec<Step>, step: Step) -> Result<(), OutOfMemory>
    ensures { OnOk result (steps_of steps.new.items ≡ followed (steps_of steps.old.items) (one_step (step_of step))) }
{
    steps.push(step)?;
    Ok(())
}

/// One statement more that is no loop.
pub fn add_act(alloc: Global, steps: &mut Vec<Step>, act: Act) -> Result<(), OutOfMemory>
    ensures { OnOk result (steps_of steps.new.items ≡ followed (steps_of steps.old.items) (one_step (Do (act_of act)))) }
{
    let step = Step::act(alloc, act)?;
    add_step(steps, step)
}

// A `const` name of `main` that stands in no block, `if` or `for`.
fn with_fixed(
    source: &Source<'_>,
    k: &mut Declared,
    name: &Name,
    value: i32,
) -> Result<(), OutOfMemory>
    ensures { OnOk result (declared_of k.new ≡ with_fixed source.now.places.now (declared_of k.old) name.now value) }
{
    let cells = k.next_cells(false, false, 1)?;
    k.add_var(unchanging(source.alloc, name, value, None)?)?;
    k.names.declare(name, Meaning::Fixed(value, cells))
}

// A `const` name of a block or `if`, whose variable gets its value when `main` is unrolled.
fn with_fixed_later(source: &Source<'_>, k: &mut Declared, name: &Name) -> Result<(), OutOfMemory>
    ensures { OnOk result (declared_of k.new ≡ with_fixed_later source.now.places.now (declared_of k.old) name.now) }
{
    let cells = k.next_cells(false, false, 1)?;
    let number = k.names.told;
    k.add_var(unchanging(source.alloc, name, 0, None)?)?;
    k.names.declare(name, Meaning::FixedLater(number, cells))
}

/// A name whose value is told later and that is no variable.
pub fn with_turning(source: &Source<'_>, k: &mut Declared, name: &Name) -> Result<(), OutOfMemory>
    ensures { OnOk result (declared_of k.new ≡ with_turning source.now.places.now (declared_of k.old) name.now) }
{
    let number = k.names.told;
    k.names.declare(name, Meaning::Turning(number))
}

// A `const` name of `main`.
fn judged_const(
    source: &Source<'_>,
    k: &mut Declared,
    steps: &mut Vec<Step>,
    spot: Spot,
    name: &Name,
    e: &Expr,
) -> Result<(), BindRefusal>
    ensures { Judges result (walked k.new steps.new.items)
        (const_at source.now.places.now spot.in_for spot.is_nested (walked k.old steps.old.items) name.now (expr_of e.now)) }
{
    if spot.in_for {
        let value = judged_static(source.alloc, source.places, &k.names, e)?;
        with_turning(source, k, name)?;
        add_step(steps, Step::Fix { value, var: None })?;
        return Ok(());
    }
    if spot.is_nested {
        let value = judged_static(source.alloc, source.places, &k.names, e)?;
        let var = k.next_var()?;
        with_fixed_later(source, k, name)?;
        add_step(
            steps,
            Step::Fix {
                value,
                var: Some(var),
            },
        )?;
        return Ok(());
    }
    let value = judged_value(source.alloc, source.places, &k.names, e)?;
    with_fixed(source, k, name, value)?;
    Ok(())
}

// A variable of `main` with so many cells.
fn with_changing(
    source: &Source<'_>,
    k: &mut Declared,
    name: &Name,
    is_array: bool,
    count: u32,
) -> Result<(), OutOfMemory>
    ensures { OnOk result (declared_of k.new ≡ with_changing source.now.places.now (declared_of k.old) name.now is_array count) }
{
    let cells = k.next_cells(false, is_array, count)?;
    let start = zeros(source.alloc, count)?;
    k.add_var(changing(name, start)?)?;
    k.names.declare(name, Meaning::Variable(cells))
}

// The declaration of a variable without an initializer: its cells become 0.
fn cleared(
    source: &Source<'_>,
    k: &mut Declared,
    steps: &mut Vec<Step>,
    name: &Name,
    is_array: bool,
    count: u32,
) -> Result<(), OutOfMemory>
    ensures { OnOk result (walked k.new steps.new.items ≡ does
        (Do (Clear (length (declared_of k.old).vars)))
        (behind (walked k.old steps.old.items) (with_changing source.now.places.now (declared_of k.old) name.now is_array count))) }
{
    let var = k.next_var()?;
    with_changing(source, k, name, is_array, count)?;
    add_act(source.alloc, steps, Act::Clear { var })
}

// The declaration of a variable with an initializer.
fn initialized(
    source: &Source<'_>,
    k: &mut Declared,
    steps: &mut Vec<Step>,
    x: &Ident,
    e: &Expr,
) -> Result<(), OutOfMemory>
    ensures { OnOk result (walked k.new steps.new.items ≡ does
        (Do (initializer source.now.places.now (declared_of k.old) x.now (expr_of e.now)))
        (behind (walked k.old steps.old.items) (with_changing source.now.places.now (declared_of k.old) x.now.name false 1))) }
{
    let var = k.next_var()?;
    let value = resolved(source.alloc, source.places, &k.names, e)?;
    with_changing(source, k, &x.name, false, 1)?;
    let at = place(source.places, x.at);
    add_act(
        source.alloc,
        steps,
        Act::Assign {
            var,
            index: None,
            op: AssignOp::Set,
            op_at: at,
            value,
            at,
        },
    )
}

/// A declarator of `main`.
pub fn judged_declr(
    source: &Source<'_>,
    k: &mut Declared,
    steps: &mut Vec<Step>,
    spot: Spot,
    is_const: bool,
    declr: &Declr,
) -> Result<(), BindRefusal>
    ensures { Judges result (walked k.new steps.new.items)
        (judged_declr source.now.places.now (walked k.old steps.old.items) spot is_const (declr_of declr.now)) }
{
    match declr {
        Declr::Init { name, value } => {
            if is_const {
                judged_const(source, k, steps, spot, &name.name, value)
            } else {
                initialized(source, k, steps, name, value)?;
                Ok(())
            }
        }
        Declr::Plain(x) => {
            cleared(source, k, steps, &x.name, false, 1)?;
            Ok(())
        }
        Declr::Array { name, length } => {
            let count = length.value.unsigned_abs();
            cleared(source, k, steps, &name.name, true, count)?;
            Ok(())
        }
    }
}

/// Declarators of `main`, in order.
pub fn judged_declrs(
    source: &Source<'_>,
    k: &mut Declared,
    steps: &mut Vec<Step>,
    spot: Spot,
    is_const: bool,
    declrs: &[Declr],
) -> Result<(), BindRefusal>
    ensures { Judges result (walked k.new steps.new.items)
        (judged_declrs source.now.places.now (walked k.old steps.old.items) spot is_const (map declr_of declrs.now)) }
{
    for declr in declrs {
        judged_declr(source, k, steps, spot, is_const, declr)?;
    }
    Ok(())
}
