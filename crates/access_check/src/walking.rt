// The walk over statements, with the components that every path has assigned.

ghost use Rattle.std.specs.Prelude.{◌≡◌, ◌≤◌, ◌<◌, ◌-◌, ◌^◌, ℤ, pos, Option, length, map, slice_set};
ghost use Rattle.kernel_model.specs.Obeys.{with_counter};
ghost use Rattle.kernel_model.specs.Walk.{stmt_found, covered_after, turns_found, turns_covered, with_covered};
ghost use Rattle.access_check.specs.Modes.{model_of, AreSmall};
ghost use Rattle.access_check.specs.Found.{found_of};
ghost use Rattle.access_check.specs.States.{has_component, counters_of, number_of};
ghost use Rattle.access_check.specs.Agree.{Agree, CountersFit};
ghost use Rattle.access_check.specs.Indices.{Enough, names_of};

use crate::components::{Components, add_component, keep_common};
use crate::counters::static_value;
use crate::expressions::{after_expression, after_right};
use crate::found::Breach;
use crate::indices::is_named;
use crate::modes::{Mode, mode_of};
use crate::sides::{own_side_of, store_of};
use crate::uses::{Occurrence, occurrence_found};
use kernel_model::types::RStmt;

// The components that every path has assigned after a store.
fn note_store(modes: &[Mode], covered: &mut Components, arg: u32, index: Option<i32>)
    requires modes { AreSmall modes.now }
    ensures { Agree (map model_of modes.now) (with_covered arg (number_of index) (has_component covered.old)) (has_component covered.new) }
{
    if let Some(i) = index {
        if i >= 0 && (i as u32) < mode_of(modes, arg).dim {
            add_component(covered, arg, i as u32);
        }
    }
}

// The end of the turns that the walk goes over: one turn is enough where no static index in the body names the counter.
fn enough_turns(named: &[bool], counter: u32, first: u32, past: u32) -> u32
    ensures { Enough (names_of named.now counter) first past result }
{
    if first < past && !is_named(named, counter) {
        first + 1
    } else {
        past
    }
}

/// The walk over a statement: what is found after it, and the components that every path has assigned after it.
#[cycle(walk)]
pub fn walk(
    st: &RStmt,
    modes: &[Mode],
    named: &[bool],
    counters: &mut [Option<i32>],
    covered: &mut Components,
    found: &mut Option<Breach>,
)
    requires modes { AreSmall modes.now }
    requires fits { CountersFit (length counters.old) (names_of named.now) st.now }
    ensures counters { counters.new ≡ counters.old }
    ensures found { found_of found.new
        ≡ stmt_found (map model_of modes.now) st.now (counters_of counters.old) (has_component covered.old) (found_of found.old) }
    ensures covered { Agree (map model_of modes.now) (covered_after st.now (counters_of counters.old) (has_component covered.old))
        (has_component covered.new) }
{
    match st {
        RStmt::Block(all) => {
            for inner in all {
                walk(inner, modes, named, counters, covered, found);
            }
        }
        RStmt::Declare { .. } => {}
        RStmt::SetScalar { value, .. } => {
            *found = after_expression(value, modes, counters, covered, *found);
        }
        RStmt::SetLocal { index, value, .. } => {
            let first = after_expression(index, modes, counters, covered, *found);
            *found = after_expression(value, modes, counters, covered, first);
        }
        RStmt::SetArg {
            param,
            form,
            index,
            at,
            op,
            value,
            ..
        } => {
            let own = own_side_of(*param, *form, index, *op, value);
            let first = after_expression(index, modes, counters, covered, *found);
            let second = after_right(own, value, modes, counters, covered, first);
            let component = static_value(index, counters);
            let occurrence = Occurrence {
                how: store_of(own, *op),
                arg: *param,
                index: component,
                at: *at,
            };
            *found = occurrence_found(occurrence, modes, covered, second);
            note_store(modes, covered, *param, component);
        }
        RStmt::If {
            condition,
            then,
            otherwise,
        } => {
            *found = after_expression(condition, modes, counters, covered, *found);
            let mut other = *covered;
            walk(then, modes, named, counters, covered, found);
            walk(otherwise, modes, named, counters, &mut other, found);
            keep_common(covered, &other);
        }
        RStmt::For {
            counter,
            first,
            past,
            body,
        } => {
            let outer = counters[*counter as usize];
            let enough = enough_turns(named, *counter, *first, *past);
            walk_turns(
                body, *counter, *first, enough, modes, named, counters, covered, found,
            );
            counters[*counter as usize] = outer;
        }
    }
}

// The walk over the turns of a `for`.
#[cycle(walk)]
fn walk_turns(
    body: &RStmt,
    counter: u32,
    first: u32,
    past: u32,
    modes: &[Mode],
    named: &[bool],
    counters: &mut [Option<i32>],
    covered: &mut Components,
    found: &mut Option<Breach>,
)
    requires modes { AreSmall modes.now }
    requires counter { counter < length counters.old }
    requires past { past < 2 ^ 31 }
    requires fits { CountersFit (length counters.old) (names_of named.now) body.now }
    ensures counters { (v : Option ℤ) → slice_set counters.new counter v ≡ slice_set counters.old counter v }
    ensures found { found_of found.new
        ≡ turns_found (map model_of modes.now)
        (λ i d g. stmt_found (map model_of modes.now) body.now (with_counter (counters_of counters.old) counter (pos i)) d g)
        (λ i d. covered_after body.now (with_counter (counters_of counters.old) counter (pos i)) d) first (past - first)
        (has_component covered.old) (found_of found.old) }
    ensures covered { Agree (map model_of modes.now)
        (turns_covered (λ i d. covered_after body.now (with_counter (counters_of counters.old) counter (pos i)) d) first (past - first)
        (has_component covered.old)) (has_component covered.new) }
{
    for i in first..past {
        counters[counter as usize] = Some(i as i32);
        walk(body, modes, named, counters, covered, found);
    }
}
