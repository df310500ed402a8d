// What the walk finds in expressions.

ghost use Rattle.std.specs.Prelude.{◌≡◌, map};
ghost use Rattle.kernel_model.specs.Walk.{expr_found, right_found, own_found};
ghost use Rattle.access_check.specs.Modes.{model_of, AreSmall};
ghost use Rattle.access_check.specs.Found.{found_of};
ghost use Rattle.access_check.specs.States.{has_component, counters_of};
ghost use Rattle.access_check.specs.Sides.{own_of};

use crate::components::Components;
use crate::counters::static_value;
use crate::found::Breach;
use crate::modes::Mode;
use crate::sides::OwnSide;
use crate::uses::{Occurrence, Use, occurrence_found};
use c_tree::MinMax;
use kernel_model::types::RExpr;

// What is found after an expression. A chain of operators, each the left operand of the one before it, is gone along by
// a loop from its end, since what counts doesn't turn on the order.
#[cycle(expressions)]
#[tactic(auto, using(crate::proofs::Chains::found_down))]
fn after_chain(
    e: &RExpr,
    modes: &[Mode],
    counters: &[Option<i32>],
    covered: &Components,
    found: Option<Breach>,
) -> Option<Breach>
    requires modes { AreSmall modes.now }
    ensures { found_of result
        ≡ expr_found (map model_of modes.now) e.now (counters_of counters.now) (has_component covered.now) (found_of found) }
{
    let mut rest = e;
    let mut now = found;
    'down: while let RExpr::Binary { left, right, .. } = rest {
        now = after_expression(right, modes, counters, covered, now);
        rest = left;
    }
    after_expression(rest, modes, counters, covered, now)
}

/// What is found after an expression.
#[cycle(expressions)]
pub fn after_expression(
    e: &RExpr,
    modes: &[Mode],
    counters: &[Option<i32>],
    covered: &Components,
    found: Option<Breach>,
) -> Option<Breach>
    requires modes { AreSmall modes.now }
    ensures { found_of result
        ≡ expr_found (map model_of modes.now) e.now (counters_of counters.now) (has_component covered.now) (found_of found) }
{
    match e {
        RExpr::Number(_) | RExpr::Scalar(_) | RExpr::Constant(_) => found,
        RExpr::Arg {
            param,
            index,
            at,
            ..
        } => {
            let within = after_expression(index, modes, counters, covered, found);
            let occurrence = Occurrence {
                how: Use::Read,
                arg: *param,
                index: static_value(index, counters),
                at: *at,
            };
            occurrence_found(occurrence, modes, covered, within)
        }
        RExpr::Local { index, .. } => after_expression(index, modes, counters, covered, found),
        RExpr::Const { index, .. } => after_expression(index, modes, counters, covered, found),
        RExpr::Unary { operand, .. } => after_expression(operand, modes, counters, covered, found),
        RExpr::Binary { left, right, .. } => {
            let first = after_chain(left, modes, counters, covered, found);
            after_expression(right, modes, counters, covered, first)
        }
        RExpr::Choice {
            condition,
            if_true,
            if_false,
        } => {
            let first = after_expression(condition, modes, counters, covered, found);
            let second = after_expression(if_true, modes, counters, covered, first);
            after_expression(if_false, modes, counters, covered, second)
        }
        RExpr::Paren(inner) => after_expression(inner, modes, counters, covered, found),
        RExpr::Extremum { first, second, .. } => {
            let one = after_expression(first, modes, counters, covered, found);
            after_expression(second, modes, counters, covered, one)
        }
        RExpr::Absolute(operand) => after_expression(operand, modes, counters, covered, found),
    }
}

// What is found after the target itself on the right side.
fn after_own(
    which: MinMax,
    e: &RExpr,
    modes: &[Mode],
    counters: &[Option<i32>],
    covered: &Components,
    found: Option<Breach>,
) -> Option<Breach>
    requires modes { AreSmall modes.now }
    ensures { found_of result
        ≡ own_found (map model_of modes.now) which e.now (counters_of counters.now) (has_component covered.now) (found_of found) }
{
    match e {
        RExpr::Arg {
            param,
            index,
            at,
            ..
        } => {
            let within = after_expression(index, modes, counters, covered, found);
            let occurrence = Occurrence {
                how: Use::Own(which),
                arg: *param,
                index: static_value(index, counters),
                at: *at,
            };
            occurrence_found(occurrence, modes, covered, within)
        }
        _ => after_expression(e, modes, counters, covered, found),
    }
}

/// What is found after the right side of an assignment.
pub fn after_right(
    own: OwnSide,
    e: &RExpr,
    modes: &[Mode],
    counters: &[Option<i32>],
    covered: &Components,
    found: Option<Breach>,
) -> Option<Breach>
    requires modes { AreSmall modes.now }
    ensures { found_of result
        ≡ right_found (map model_of modes.now) (own_of own) e.now (counters_of counters.now) (has_component covered.now) (found_of found) }
{
    match own {
        OwnSide::Neither => after_expression(e, modes, counters, covered, found),
        OwnSide::First(which) => match e {
            RExpr::Extremum { first, second, .. } => {
                let one = after_own(which, first, modes, counters, covered, found);
                after_expression(second, modes, counters, covered, one)
            }
            _ => after_expression(e, modes, counters, covered, found),
        },
        OwnSide::Second(which) => match e {
            RExpr::Extremum { first, second, .. } => {
                let one = after_expression(first, modes, counters, covered, found);
                after_own(which, second, modes, counters, covered, one)
            }
            _ => after_expression(e, modes, counters, covered, found),
        },
    }
}
