// Assignments: the rules that they break, and what they mean.

ghost use Rattle.std.specs.Prelude.{◌≡◌, IfOk};
ghost use Rattle.c_tree.specs.View.{expr_of, assignment_of, place_of};
ghost use Rattle.name_resolution.specs.First.{least_from};
ghost use Rattle.name_resolution.specs.Scopes.{scope};
ghost use Rattle.name_resolution.specs.Numbers.{ExprFits, StmtFits};
ghost use Rattle.kernel_model.specs.View.{rexpr_of, rstmt_of};
ghost use Rattle.name_resolution.specs.Kernels.{place_breaches, assignment_breaches, set_element, assigned};

use crate::breaches::Breach;
use crate::decls::{Decl, Scope, Sort, Use, judge_use};
use crate::expressions::{judge_expr, value};
use c_tree::{AssignOp, Assignment, Place, Pos, pos_of};
use kernel_model::types::{ElementForm, RExpr, RStmt};
use op_num::OutOfMemory;
use std::alloc::Global;

// Judges the target of an assignment.
#[tactic(auto, using(crate::proofs::Firsts::least_append))]
fn judge_place(
    first: &mut Option<Breach>,
    known: Scope<'_>,
    in_kernel: bool,
    is_fixed: bool,
    place: &Place,
)
    ensures { first.new ≡ least_from first.old
        (place_breaches in_kernel (scope known.entry.file.now.entries known.entry.own.now.entries) is_fixed (place_of place.now)) }
{
    let single = Use {
        in_kernel,
        is_indexed: false,
        is_target: true,
        is_fixed,
    };
    let indexed = Use {
        in_kernel,
        is_indexed: true,
        is_target: true,
        is_fixed,
    };
    match place {
        Place::Name(name) => judge_use(first, single, name.at, known.means(&name.name)),
        Place::Index { name, index } => {
            judge_use(first, indexed, name.at, known.means(&name.name));
            judge_expr(first, known, in_kernel, index);
        }
        Place::Deref { name, .. } => judge_use(first, indexed, name.at, known.means(&name.name)),
    }
}

/// Judges an assignment, where `is_fixed` says whether an `op_decl_const` before names its target.
#[tactic(auto, using(crate::proofs::Firsts::least_append))]
pub fn judge_assignment(
    first: &mut Option<Breach>,
    known: Scope<'_>,
    in_kernel: bool,
    is_fixed: bool,
    assignment: &Assignment,
)
    ensures { first.new ≡ least_from first.old
        (assignment_breaches in_kernel (scope known.entry.file.now.entries known.entry.own.now.entries)
        is_fixed (assignment_of assignment.now)) }
{
    judge_place(first, known, in_kernel, is_fixed, &assignment.place);
    judge_expr(first, known, in_kernel, &assignment.value);
}

// The assignment to an element of what is declared so.
fn set_element(
    decl: Decl,
    form: ElementForm,
    index: RExpr,
    at: Pos,
    op: AssignOp,
    op_at: Pos,
    value: RExpr,
) -> RStmt
    requires index { ExprFits (rexpr_of index) }
    requires value { ExprFits (rexpr_of value) }
    ensures value { rstmt_of result ≡ set_element decl form (rexpr_of index) at op op_at (rexpr_of value) }
    ensures fits { StmtFits (rstmt_of result) }
{
    let (from, count) = (decl.from, decl.count);
    match decl.sort {
        Sort::Param => RStmt::SetArg {
            param: from,
            form,
            index,
            at,
            op,
            op_at,
            value,
        },
        _ => RStmt::SetLocal {
            from,
            count,
            form,
            index,
            at,
            op,
            op_at,
            value,
        },
    }
}

/// What an assignment means.
pub fn assigned(
    alloc: Global,
    places: &[Pos],
    known: Scope<'_>,
    assignment: &Assignment,
) -> Result<RStmt, OutOfMemory>
    ensures fits { IfOk result (λ s. StmtFits (rstmt_of s)) }
    ensures value { IfOk result (λ s.
        rstmt_of s ≡ assigned places.now (scope known.entry.file.now.entries known.entry.own.now.entries)
        (assignment_of assignment.now) (place_of assignment.now.place)) }
{
    let op_at = pos_of(places, assignment.at);
    let op = assignment.op;
    let right = value(alloc, places, known, &assignment.value)?;
    match &assignment.place {
        Place::Name(name) => Ok(RStmt::SetScalar {
            cell: known.decl(&name.name).from,
            op,
            op_at,
            value: right,
        }),
        Place::Index { name, index } => {
            let index = value(alloc, places, known, index)?;
            let at = pos_of(places, name.at);
            let decl = known.decl(&name.name);
            Ok(set_element(decl, ElementForm::Index, index, at, op, op_at, right))
        }
        Place::Deref { name, .. } => {
            let index = RExpr::Number(0);
            let at = pos_of(places, name.at);
            let decl = known.decl(&name.name);
            Ok(set_element(decl, ElementForm::Deref, index, at, op, op_at, right))
        }
    }
}
