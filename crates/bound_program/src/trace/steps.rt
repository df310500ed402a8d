// `main` when its names are numbers, and what it unrolls to.

ghost use Rattle.std.specs.Prelude.{◌≡◌, IfOk};

use crate::trace::naming::named_act;
use crate::{Act, Item};
use c_tree::Pos;
use kernel_model::types::RExpr;
use op_num::OutOfMemory;
use std::alloc::Global;
use std::sync::Arc;

/// An expression that must be known before the run, and the place of its first token. A name whose value is told when
/// `main` is unrolled is the constant of that number in it.
#[derive(Drop)]
pub struct Asked {
    pub value: RExpr,
    pub at: Pos,
}

/// A statement whose names that are told when `main` is unrolled are numbered anew: in the expressions of `act`
/// `Constant(k)` is the name with the number `names[k]`. One that stands in a `for` is shared by the items of all
/// turns.
#[derive(Drop)]
pub struct NamedAct {
    pub act: Arc<Act, Global>,
    pub names: Vec<u32>,
}

/// A statement of `main`.
#[derive(Drop)]
pub enum Step {
    /// a statement that is no loop
    Do(NamedAct),
    /// the loop of that number
    Loop(u32),
    /// a `const` name whose value is told here, with the number of its variable where it is one
    Fix {
        value: Asked,
        var: Option<u32>,
    },
    /// statements in order; what is told in them is told to them alone
    Block(Vec<Step>),
    /// `if (a) .. else ..`; without `else` the last part is a block of none
    Choose {
        test: Asked,
        then: Box<Step>,
        otherwise: Box<Step>,
    },
    /// `for (int i = a; i < b; i++) ..`, where the value of `i` is told to the bound and to the body
    Repeat {
        from: Asked,
        to: Asked,
        body: Box<Step>,
    },
}

impl Step {
    ghost use Rattle.bound_program.specs.Values.{act_of};
    ghost use Rattle.bound_program.specs.Steps.{Do, Block};
    ghost use Rattle.bound_program.specs.Unrolling.{step_of, steps_of};

    /// A block of these steps.
    #[tactic(auto, using(crate::proofs::trace::Blocks::step_of_block))]
    pub fn block(inner: Vec<Step>) -> Step
        ensures { step_of result ≡ Block (steps_of inner.items) }
    {
        Step::Block(inner)
    }

    /// A statement that is no loop; in its expressions `Constant(k)` is the name with the number k.
    pub fn act(alloc: Global, act: Act) -> Result<Step, OutOfMemory>
        ensures { IfOk result (λ s. step_of s ≡ Do (act_of act)) }
    {
        let named = named_act(alloc, act)?;
        Ok(Step::Do(named))
    }
}

/// The value that a `const` variable of a block was told.
#[derive(Clone, Copy, PartialEq, Eq, Debug)]
pub struct Told {
    pub var: u32,
    pub value: i32,
}

/// What `main` does so far, the values that were told to variables on the way, and how many items and turns may still
/// come.
#[derive(Drop)]
pub struct Unrolled {
    pub items: Vec<Item>,
    pub values: Vec<Told>,
    pub left: usize,
}
