// Tails of programs: the items from a cut on, begun with the values of a state.

ghost use Rattle.std.specs.Prelude.{◌≡◌, ◌<◌, ℕ, [], length, map, drop, reverse, slice_index_or, IfOk};
ghost use Rattle.mesh_decl.specs.Mesh.{dat_count, dat_values};
ghost use Rattle.bound_program.specs.Values.{var_of, bound_of};
ghost use Rattle.bound_program.specs.Fits.{Fits};
ghost use Rattle.checkpoint.specs.Cut.{CanCut, HasShape, state_of, begun, left_over, with_dats, with_vars, tail as tail_of};

use crate::laws::tails_fit;
use crate::states::State;
use bound_program::{Bound, Var};
use mesh_decl::{Mesh, Values};
use op_num::OutOfMemory;
use std::alloc::Global;

// Gives the dats these values.
fn set_dats(mesh: &mut Mesh, mut values: Vec<Values>)
    requires count { length values.items ≡ dat_count mesh.old }
    requires lengths { (d : ℕ) → d < length values.items → length (slice_index_or values.items d []) ≡ length (dat_values mesh.old d) }
    ensures { mesh.new ≡ record mesh.old { dats = with_dats mesh.old.dats values.items } }
{
    let mut dat = mesh.dat_count();
    while let Some(last) = values.pop() {
        dat -= 1;
        mesh.set_values(dat, last);
    }
}

// The last of these values, which is taken; no values where there is none.
fn next_start(alloc: Global, values: &mut Vec<Values>) -> Values
    ensures first { result ≡ slice_index_or (reverse values.old.items) 0 [] }
    ensures rest { reverse values.new.items ≡ drop 1 (reverse values.old.items) }
{
    match values.pop() {
        Some(start) => start,
        None => Values::new(Vec::new(alloc)),
    }
}

// A variable that isn't `const` starts with the last of these values, and the others are left.
fn start_with(alloc: Global, var: &mut Var, values: &mut Vec<Values>)
    ensures var { var_of var.new ≡ begun (var_of var.old) (reverse values.old.items) }
    ensures values { reverse values.new.items ≡ left_over (var_of var.old) (reverse values.old.items) }
{
    if !var.is_const {
        var.start = next_start(alloc, values);
    }
}

// The variables that aren't `const` start with these values, in order.
fn set_vars(alloc: Global, vars: &mut Vec<Var>, mut values: Vec<Values>)
    ensures { map var_of vars.new.items ≡ with_vars (map var_of vars.old.items) values.items }
{
    values.reverse();
    for i in 0..vars.len() {
        start_with(alloc, &mut vars[i], &mut values);
    }
}

/// The tail of a program: its items from the state's on, numbered from 0, begun with the values of the state, which was
/// read for this program.
pub fn tail(alloc: Global, bound: Bound, state: State) -> Result<Bound, OutOfMemory>
    requires cut { CanCut (bound_of bound) state.item }
    requires shape { HasShape (bound_of bound) (state_of state) }
    ensures tail { IfOk result (λ t. bound_of t ≡ tail_of (bound_of bound) (state_of state)) }
    // What goes on fits, where the program does.
    ensures fits { Fits (bound_of bound) → IfOk result (λ t. Fits (bound_of t)) }
{
    tails_fit();
    let mut tail = bound;
    let later = tail.trace.split_off(state.item as usize)?;
    tail.trace = later;
    set_dats(&mut tail.mesh, state.dats);
    set_vars(alloc, &mut tail.vars, state.vars);
    Ok(tail)
}
