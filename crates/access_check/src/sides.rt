// Assignments of the form `P = MIN(P, e)` and `P = MAX(P, e)`, with P on either side.

ghost use Rattle.std.specs.Prelude.{◌≡◌, ℕ, ℤ, Option};
ghost use Rattle.c_tree.specs.declared.lexer.tokens.Pos.{Pos};
ghost use Rattle.kernel_model.specs.Obeys.{is_place, own_side, target_event};
ghost use Rattle.access_check.specs.Sides.{own_of};
ghost use Rattle.access_check.specs.Uses.{use_event};

use crate::tokens::{is_same, is_same_form};
use crate::uses::Use;
use c_tree::{AssignOp, MinMax};
use kernel_model::types::{ElementForm, RExpr};

/// Which operand of `MIN` or `MAX` on the right side is the target of the assignment itself.
#[derive(Clone, Copy, Debug, PartialEq, Eq)]
pub enum OwnSide {
    Neither,
    First(MinMax),
    Second(MinMax),
}

fn is_target_again(param: u32, form: ElementForm, index: &RExpr, e: &RExpr) -> bool
    ensures { result ≡ is_place param form index.now e.now }
{
    match e {
        RExpr::Arg {
            param: other,
            form: other_form,
            index: other_index,
            ..
        } => { param == *other && is_same_form(form, *other_form) && is_same(index, other_index) }
        _ => false,
    }
}

/// Which operand is the target, on the right side of that assignment to it.
pub fn own_side_of(
    param: u32,
    form: ElementForm,
    index: &RExpr,
    op: AssignOp,
    value: &RExpr,
) -> OwnSide
    ensures { own_of result ≡ own_side param form index.now op value.now }
{
    match op {
        AssignOp::Set => match value {
            RExpr::Extremum {
                which,
                first,
                second,
            } => {
                if is_target_again(param, form, index, first) {
                    OwnSide::First(*which)
                } else if is_target_again(param, form, index, second) {
                    OwnSide::Second(*which)
                } else {
                    OwnSide::Neither
                }
            }
            _ => OwnSide::Neither,
        },
        _ => OwnSide::Neither,
    }
}

/// How the target of an assignment is used.
pub fn store_of(own: OwnSide, op: AssignOp) -> Use
    ensures { (a : ℕ) (ix : Option ℤ) (at : Pos) → use_event result a ix at ≡ target_event (own_of own) op a ix at }
{
    match own {
        OwnSide::First(which) => Use::Merge(which),
        OwnSide::Second(which) => Use::Merge(which),
        OwnSide::Neither => match op {
            AssignOp::Set => Use::Assign,
            AssignOp::Add => Use::Add,
            AssignOp::Sub => Use::Add,
            _ => Use::Change,
        },
    }
}
