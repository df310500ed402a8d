// The values of expressions of `main`.

ghost use Rattle.std.specs.Prelude.{◌≡◌, ◌+◌, pos, slice_index_or};
ghost use Rattle.kernel_model.specs.View.{rexpr_of};
ghost use Rattle.bound_program.specs.HostExpr.{value};

use kernel_model::operators::{
    KernelFault, absolute, apply_op, apply_unary_op, extreme, index_of, settles, truth_of,
};
use kernel_model::types::RExpr;

// The cell with this number behind the first ones, or 0 where there is none.
fn cell_behind(cells: &[i32], from: usize, index: usize) -> i32
    ensures { result ≡ slice_index_or cells.now (from + index) (pos 0) }
{
    if from < cells.len() && index < cells.len() - from {
        cells[from + index]
    } else {
        0
    }
}

/// The value of an expression of `main`, or its first fault: `told` holds the values of the names that are told when
/// `main` is unrolled, `cells` the cells of all variables. What isn't there is 0.
pub fn host_value(e: &RExpr, told: &[i32], cells: &[i32]) -> Result<i32, KernelFault>
    ensures { result ≡ value told.now cells.now (rexpr_of e.now) }
{
    match e {
        RExpr::Number(n) => Ok(*n),
        RExpr::Scalar(k) => Ok(cell_behind(cells, *k as usize, 0)),
        RExpr::Constant(k) => Ok(cell_behind(told, *k as usize, 0)),
        RExpr::Arg { index, at, .. } => {
            let z = host_value(index, told, cells)?;
            let i = index_of(0, *at, z)?;
            Ok(cell_behind(cells, 0, i))
        }
        RExpr::Local {
            from,
            count,
            index,
            at,
            ..
        } => {
            let z = host_value(index, told, cells)?;
            let i = index_of(*count as usize, *at, z)?;
            Ok(cell_behind(cells, *from as usize, i))
        }
        RExpr::Const { index, at, .. } => {
            let z = host_value(index, told, cells)?;
            let i = index_of(0, *at, z)?;
            Ok(cell_behind(cells, 0, i))
        }
        RExpr::Unary { op, operand } => {
            let x = host_value(operand, told, cells)?;
            Ok(apply_unary_op(*op, x))
        }
        RExpr::Binary {
            op,
            left,
            right,
            at,
        } => {
            let x = host_value(left, told, cells)?;
            if settles(*op, x) {
                return Ok(truth_of(x != 0));
            }
            let y = host_value(right, told, cells)?;
            apply_op(*op, *at, x, y)
        }
        RExpr::Choice {
            condition,
            if_true,
            if_false,
        } => {
            let x = host_value(condition, told, cells)?;
            if x == 0 {
                host_value(if_false, told, cells)
            } else {
                host_value(if_true, told, cells)
            }
        }
        RExpr::Paren(inner) => host_value(inner, told, cells),
        RExpr::Extremum {
            which,
            first,
            second,
        } => {
            let x = host_value(first, told, cells)?;
            let y = host_value(second, told, cells)?;
            Ok(extreme(*which, x, y))
        }
        RExpr::Absolute(operand) => {
            let x = host_value(operand, told, cells)?;
            Ok(absolute(x))
        }
    }
}
