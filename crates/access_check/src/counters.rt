// The counters of the `for`s around a statement, and indices that they tell.

ghost use Rattle.std.specs.Prelude.{◌≡◌};
ghost use Rattle.kernel_model.specs.Numbers.{sum, difference, product, negated};
ghost use Rattle.kernel_model.specs.Obeys.{static, static_op, static_unary};
ghost use Rattle.access_check.specs.Chains.{after_left};
ghost use Rattle.access_check.specs.States.{counters_of, number_of};

use c_tree::{BinaryOp, UnaryOp};
use kernel_model::types::RExpr;
use op_num::{wrap_add, wrap_mul, wrap_neg, wrap_sub};

fn add(a: i32, b: i32) -> i32
    ensures { result ≡ sum a b }
{
    wrap_add(a, b)
}

fn sub(a: i32, b: i32) -> i32
    ensures { result ≡ difference a b }
{
    wrap_sub(a, b)
}

fn mul(a: i32, b: i32) -> i32
    ensures { result ≡ product a b }
{
    wrap_mul(a, b)
}

fn minus(a: i32) -> i32
    ensures { result ≡ negated a }
{
    wrap_neg(a)
}

fn static_operator(op: BinaryOp, x: Option<i32>, y: Option<i32>) -> Option<i32>
    ensures { number_of result ≡ static_op op (number_of x) (number_of y) }
{
    let a = x?;
    let b = y?;
    match op {
        BinaryOp::Add => Some(add(a, b)),
        BinaryOp::Sub => Some(sub(a, b)),
        BinaryOp::Mul => Some(mul(a, b)),
        _ => None,
    }
}

fn static_sign(op: UnaryOp, x: Option<i32>) -> Option<i32>
    ensures { number_of result ≡ static_unary op (number_of x) }
{
    let a = x?;
    match op {
        UnaryOp::Minus => Some(minus(a)),
        UnaryOp::Plus => Some(a),
        _ => None,
    }
}

// How many operators of a chain one call goes down.
const CHAIN: usize = 16;

// The static value of an expression: down the operators of its chain to the leftmost operand, and back up.
#[cycle(values)]
fn chain_value(e: &RExpr, counters: &[Option<i32>]) -> Option<i32>
    ensures { number_of result ≡ static e.now (counters_of counters.now) }
{
    let mut nodes = [e; CHAIN];
    let mut count = 0;
    let mut here = e;
    'down: while count < CHAIN {
        let RExpr::Binary { left, .. } = here else {
            break 'down;
        };
        nodes[count] = here;
        count += 1;
        here = left;
    }
    let mut x = static_value(here, counters);
    'up: while count > 0 {
        count -= 1;
        x = value_after(nodes[count], x, counters);
    }
    x
}

// The static value of a binary expression whose left operand has that value.
#[cycle(values)]
fn value_after(e: &RExpr, x: Option<i32>, counters: &[Option<i32>]) -> Option<i32>
    ensures { number_of result ≡ after_left (counters_of counters.now) e.now (number_of x) }
{
    let RExpr::Binary { op, right, .. } = e else {
        return x;
    };
    static_operator(*op, x, static_value(right, counters))
}

/// The value of an expression of numbers, counters, `+ - *`, unary `-` and `+`, and parentheses. A chain of operators,
/// each the left operand of the one before it, is evaluated by loops.
#[cycle(values)]
pub fn static_value(e: &RExpr, counters: &[Option<i32>]) -> Option<i32>
    ensures { number_of result ≡ static e.now (counters_of counters.now) }
{
    match e {
        RExpr::Number(n) => Some(*n),
        RExpr::Scalar(k) => match counters.get(*k as usize) {
            Some(value) => *value,
            None => None,
        },
        RExpr::Unary { op, operand } => static_sign(*op, static_value(operand, counters)),
        RExpr::Binary {
            op,
            left,
            right,
            ..
        } => static_operator(
            *op,
            chain_value(left, counters),
            static_value(right, counters),
        ),
        RExpr::Paren(inner) => static_value(inner, counters),
        _ => None,
    }
}
