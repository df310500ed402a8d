// Planned programs.

use crate::Plan;
use bound_program::Bound;
use partition::distribute::Distribution;
use std::marker::Model;

/// A bound program with its mesh on several ranks and its plan there. In every one the program is as binding leaves it,
/// the distribution is one of its mesh, and the plan is one of the program on these ranks.
#[derive(Drop)]
pub struct Planned<'a> {
    pub bound: &'a Bound,
    /// Owners, halos, and the mesh of each rank.
    pub distribution: Distribution,
    /// Blocks, colours and steps.
    pub plan: Plan,
}

impl<'a> Model for Planned<'a> {
    ghost use Rattle.std.specs.Coded.{codes};
    ghost use Rattle.kernel_model.specs.contracts.types.statements.RStmt as statement;
    ghost use Rattle.kernel_model.specs.contracts.types.expressions.RExpr as expression;
    ghost use Rattle.loop_plan.specs.Values.{plan_of};
    ghost use Rattle.loop_plan.specs.Planned.{PlannedValue, FitTogether};

    ghost Value = { PlannedValue };

    ghost coded = { Prim.hlevel (codes, statement.the_row.coded, expression.the_row.coded) };

    ghost view = { λ p. record { bound = p.bound.now; distribution = p.distribution; plan = plan_of p.plan } };

    ghost invariant = { λ p. FitTogether (record { bound = p.bound.now; distribution = p.distribution; plan = plan_of p.plan }) };
}
