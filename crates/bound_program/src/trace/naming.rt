// Statements of `main` whose told names are numbered anew.

ghost use Rattle.std.specs.Prelude.{◌≡◌, ◌++◌, ◌<◌, ℕ, List, map, option_map, length, pos, slice_index, slice_index_or, IfOk, IfSome};
ghost use Rattle.kernel_model.specs.View.{rexpr_of, Constant};
ghost use Rattle.bound_program.specs.Values.{act_of, told_act_of, closed_act};
ghost use Rattle.bound_program.specs.Naming.{name, renamed, renamed_act, named_act_of, Grows, Spells, SpellAll};

use crate::trace::steps::NamedAct;
use crate::{Act, ToldAct};
use kernel_model::types::RExpr;
use op_num::OutOfMemory;
use std::alloc::{AllocError, Global};
use std::sync::Arc;

// Among so many of the names one is looked for before it is listed once more.
const SEARCHED: usize = 16;

// Where a name stands among the first of the names.
fn found_among(names: &[u32], told: u32) -> Option<u32>
    ensures { IfSome result (λ k. (k < length names.now) × (slice_index names.now k ≡ told)) }
{
    for (i, name) in names.iter().take(SEARCHED).enumerate() {
        if *name == told {
            return Some(i as u32);
        }
    }
    None
}

// The number of a name among the names: of one of the first, or of a new one behind them.
#[tactic(auto, using(crate::proofs::trace::Renamed::found, crate::proofs::trace::Renamed::pushed, crate::proofs::trace::Renamed::grows_not))]
fn number_of(names: &mut Vec<u32>, told: u32) -> Result<u32, OutOfMemory>
    ensures grows { Grows names.old.items names.new.items }
    ensures is { IfOk result (λ k. (more : List ℕ) → name (names.new.items ++ more) k ≡ Constant told) }
{
    if let Some(number) = found_among(names, told) {
        return Ok(number);
    }
    let Ok(number) = u32::try_from(names.len()) else {
        return Err(AllocError);
    };
    names.push(told)?;
    Ok(number)
}

// The expression that `named_expr` gives, in a box.
#[cycle(named)]
fn named_box(alloc: Global, e: &RExpr, names: &mut Vec<u32>) -> Result<Box<RExpr>, OutOfMemory>
    ensures grows { Grows names.old.items names.new.items }
    ensures spells { IfOk result (λ x. Spells names.new.items (rexpr_of x.value) (rexpr_of e.now)) }
{
    let named = named_expr(alloc, e, names)?;
    let boxed = Box::new(alloc, named)?;
    Ok(boxed)
}

// The expression with the numbers of its told names among `names`, which has them then.
#[cycle(named)]
#[tactic(auto, using(crate::proofs::trace::Renamed::grows_not, crate::proofs::trace::Renamed::grows_then, crate::proofs::trace::Renamed::spells_grown))]
fn named_expr(alloc: Global, e: &RExpr, names: &mut Vec<u32>) -> Result<RExpr, OutOfMemory>
    ensures grows { Grows names.old.items names.new.items }
    ensures spells { IfOk result (λ x. Spells names.new.items (rexpr_of x) (rexpr_of e.now)) }
{
    match e {
        RExpr::Number(n) => Ok(RExpr::Number(*n)),
        RExpr::Scalar(k) => Ok(RExpr::Scalar(*k)),
        RExpr::Constant(k) => Ok(RExpr::Constant(number_of(names, *k)?)),
        RExpr::Arg {
            param,
            form,
            index,
            at,
        } => Ok(RExpr::Arg {
            param: *param,
            form: *form,
            index: named_box(alloc, index, names)?,
            at: *at,
        }),
        RExpr::Local {
            from,
            count,
            form,
            index,
            at,
        } => Ok(RExpr::Local {
            from: *from,
            count: *count,
            form: *form,
            index: named_box(alloc, index, names)?,
            at: *at,
        }),
        RExpr::Const {
            from,
            count,
            form,
            index,
            at,
        } => Ok(RExpr::Const {
            from: *from,
            count: *count,
            form: *form,
            index: named_box(alloc, index, names)?,
            at: *at,
        }),
        RExpr::Unary { op, operand } => Ok(RExpr::Unary {
            op: *op,
            operand: named_box(alloc, operand, names)?,
        }),
        RExpr::Binary {
            op,
            left,
            right,
            at,
        } => Ok(RExpr::Binary {
            op: *op,
            left: named_box(alloc, left, names)?,
            right: named_box(alloc, right, names)?,
            at: *at,
        }),
        RExpr::Choice {
            condition,
            if_true,
            if_false,
        } => Ok(RExpr::Choice {
            condition: named_box(alloc, condition, names)?,
            if_true: named_box(alloc, if_true, names)?,
            if_false: named_box(alloc, if_false, names)?,
        }),
        RExpr::Paren(inner) => Ok(RExpr::Paren(named_box(alloc, inner, names)?)),
        RExpr::Extremum {
            which,
            first,
            second,
        } => Ok(RExpr::Extremum {
            which: *which,
            first: named_box(alloc, first, names)?,
            second: named_box(alloc, second, names)?,
        }),
        RExpr::Absolute(operand) => Ok(RExpr::Absolute(named_box(alloc, operand, names)?)),
    }
}

// The same of expressions in order.
fn named_exprs(alloc: Global, es: &[RExpr], names: &mut Vec<u32>) -> Result<Vec<RExpr>, OutOfMemory>
    ensures grows { Grows names.old.items names.new.items }
    ensures spell { IfOk result (λ v. SpellAll names.new.items (map rexpr_of v.items) (map rexpr_of es.now)) }
{
    let mut named = Vec::with_capacity(alloc, es.len())?;
    for e in es {
        let e = named_expr(alloc, e, names)?;
        named.push(e)?;
    }
    Ok(named)
}

// The same of an index, where there is one.
fn named_index(
    alloc: Global,
    index: &Option<RExpr>,
    names: &mut Vec<u32>,
) -> Result<Option<RExpr>, OutOfMemory>
    ensures grows { Grows names.old.items names.new.items }
    ensures spells { IfOk result
        (λ x. (more : List ℕ) → option_map (renamed (names.new.items ++ more)) (option_map rexpr_of x) ≡ option_map rexpr_of index.now) }
{
    match index {
        None => Ok(None),
        Some(e) => {
            let e = named_expr(alloc, e, names)?;
            Ok(Some(e))
        }
    }
}

// The statement with the numbers of its told names among `names`, which has them then.
fn renumbered(alloc: Global, act: Act, names: &mut Vec<u32>) -> Result<Act, OutOfMemory>
    ensures { IfOk result (λ x. renamed_act names.new.items (act_of x) ≡ act_of act) }
{
    match act {
        Act::Clear { var } => Ok(Act::Clear { var }),
        Act::Assign {
            var,
            index,
            op,
            op_at,
            value,
            at,
        } => {
            let index = named_index(alloc, &index, names)?;
            let value = named_expr(alloc, &value, names)?;
            Ok(Act::Assign {
                var,
                index,
                op,
                op_at,
                value,
                at,
            })
        }
        Act::Line { text, values } => {
            let values = named_exprs(alloc, &values, names)?;
            Ok(Act::Line { text, values })
        }
        Act::Print { dat, file } => Ok(Act::Print { dat, file }),
        Act::Exit => Ok(Act::Exit),
    }
}

/// The statement, its told names numbered anew.
pub fn named_act(alloc: Global, act: Act) -> Result<NamedAct, OutOfMemory>
    ensures { IfOk result (λ x. named_act_of x ≡ act_of act) }
{
    let mut names = Vec::new(alloc);
    let act = renumbered(alloc, act, &mut names)?;
    let act = Arc::new(alloc, act)?;
    Ok(NamedAct { act, names })
}

// The value with this number, or 0 where there is none.
fn told_value(told: &[i32], k: usize) -> i32
    ensures { result ≡ slice_index_or told.now k (pos 0) }
{
    if k < told.len() { told[k] } else { 0 }
}

// The values of the names.
fn told_values(alloc: Global, names: &[u32], told: &[i32]) -> Result<Vec<i32>, OutOfMemory>
    ensures { IfOk result (λ v. v.items ≡ map (λ n. slice_index_or told.now n (pos 0)) names.now) }
{
    let mut values = Vec::with_capacity(alloc, names.len())?;
    for name in names {
        values.push(told_value(told, *name as usize))?;
    }
    Ok(values)
}

/// The statement with the values of its names among `told`, those of all names. It is shared, not copied.
pub fn told_act(alloc: Global, named: &NamedAct, told: &[i32]) -> Result<ToldAct, OutOfMemory>
    ensures { IfOk result (λ x. told_act_of x ≡ closed_act told.now (named_act_of named.now)) }
{
    let act = Arc::try_clone(&named.act)?;
    let told = told_values(alloc, &named.names, told)?;
    Ok(ToldAct { act, told })
}
