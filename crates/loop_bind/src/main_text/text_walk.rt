// The statements of `main`, judged in the order of the text.

ghost use Rattle.std.specs.Prelude.{◌≡◌, length, map, option_map, is_none, IfOk, OnOk};
ghost use Rattle.c_tree.specs.View.{expr_of, place_of, assignment_of, call_of, host_of, hosts_of};
ghost use Rattle.kernel_model.specs.View.{rexpr_of};
ghost use Rattle.mesh_decl.specs.Printed.{conversions};
ghost use Rattle.bound_program.specs.Values.{act_of, Line, Print};
ghost use Rattle.main_declarations.specs.Names.{means};
ghost use Rattle.bound_program.specs.Refusals.{unless_found, found_if, Judges, JudgesBy};
ghost use Rattle.main_declarations.specs.Meanings.{dat_of, or_zero};
ghost use Rattle.main_declarations.specs.Expressions.{resolved};
ghost use Rattle.bound_program.specs.Steps.{Block, Choose, Repeat};
ghost use Rattle.loop_bind.specs.Text.{target_name, target_index, assignment, line_found, nested, judged_call, judged_host, judged_hosts};
ghost use Rattle.bound_program.specs.Unrolling.{asked_of, step_of, steps_of};
ghost use Rattle.main_declarations.specs.KnownSets.{SetsKnown};
ghost use Rattle.main_declarations.specs.Walks.{declared_of, walked};

use crate::main_text::loops::{judged_loop, next_site};
use crate::main_text::prints::conversions;
use crate::main_text::turns::with_counter;
use bound_program::Act;
use bound_program::refusals::{BindRefusal, place};
use bound_program::trace::{Asked, Step};
use c_tree::{Assignment, Expr, Host, Ident, OpCall, Place, TextLiteral};
use kernel_model::types::RExpr;
use main_declarations::names::{
    Declared, Source, Spot, cells_of, dat_of, judged_static, or_zero, resolved,
};
use main_declarations::{
    add_act, add_step, judged_constant, judged_dat, judged_declrs, judged_map, judged_set,
};
use op_num::OutOfMemory;
use std::alloc::Global;

// The name of a target.
fn target_name<'a>(source: &Source<'_>, target: &'a Place) -> &'a Ident
    ensures { result.now ≡ target_name source.now.places.now source.now.consts.now source.now.entries.now.entries (place_of target.now) }
{
    let _source = source;
    match target {
        Place::Name(x) => x,
        Place::Index { name, .. } => name,
        Place::Deref { name, .. } => name,
    }
}

// The index of a target; `*x` is `x[0]`.
fn target_index(
    source: &Source<'_>,
    k: &Declared,
    target: &Place,
) -> Result<Option<RExpr>, OutOfMemory>
    ensures { IfOk result (λ r. option_map rexpr_of r ≡
        target_index source.now.places.now source.now.consts.now source.now.entries.now.entries
        (declared_of k.now).names (place_of target.now)) }
{
    match target {
        Place::Name(_) => Ok(None),
        Place::Index { index, .. } => {
            let index = resolved(source.alloc, source.places, &k.names, index)?;
            Ok(Some(index))
        }
        Place::Deref { .. } => Ok(Some(RExpr::Number(0))),
    }
}

fn assignment(source: &Source<'_>, k: &Declared, a: &Assignment) -> Result<Act, OutOfMemory>
    ensures { IfOk result (λ r. act_of r ≡
        assignment source.now.places.now source.now.consts.now source.now.entries.now.entries
        (declared_of k.now).names (assignment_of a.now)) }
{
    let name = target_name(source, &a.place);
    let cells = cells_of(k.names.means(&name.name));
    let index = target_index(source, k, &a.place)?;
    let value = resolved(source.alloc, source.places, &k.names, &a.value)?;
    Ok(Act::Assign {
        var: cells.var,
        index,
        op: a.op,
        op_at: place(source.places, a.at),
        value,
        at: place(source.places, name.at),
    })
}

// The values of an `op_printf`.
fn resolved_all(source: &Source<'_>, k: &Declared, all: &[Expr]) -> Result<Vec<RExpr>, OutOfMemory>
    ensures { IfOk result (λ r. map rexpr_of r.items ≡
        map (resolved source.now.places.now (declared_of k.now).names) (map expr_of all.now)) }
{
    let mut values = Vec::new(source.alloc);
    for e in all {
        values.push(resolved(source.alloc, source.places, &k.names, e)?)?;
    }
    Ok(values)
}

fn choose(
    alloc: Global,
    test: Asked,
    then: Vec<Step>,
    otherwise: Vec<Step>,
) -> Result<Step, OutOfMemory>
    ensures { IfOk result (λ r. step_of r ≡ Choose (asked_of test) (Block (steps_of then.items)) (Block (steps_of otherwise.items))) }
{
    let then = Box::new(alloc, Step::block(then))?;
    let otherwise = Box::new(alloc, Step::block(otherwise))?;
    Ok(Step::Choose {
        test,
        then,
        otherwise,
    })
}

fn repeat(alloc: Global, from: Asked, to: Asked, inner: Vec<Step>) -> Result<Step, OutOfMemory>
    ensures { IfOk result (λ r. step_of r ≡ Repeat (asked_of from) (asked_of to) (Block (steps_of inner.items))) }
{
    let body = Box::new(alloc, Step::block(inner))?;
    Ok(Step::Repeat { from, to, body })
}

// The line that `op_printf` prints.
fn line(
    source: &Source<'_>,
    k: &Declared,
    l: &TextLiteral,
    values: &[Expr],
) -> Result<Act, OutOfMemory>
    ensures { IfOk result (λ r. act_of r ≡ Line l.now.text
        (map (resolved source.now.places.now (declared_of k.now).names) (map expr_of values.now))) }
{
    let values = resolved_all(source, k, values)?;
    let text = l.text.clone()?;
    Ok(Act::Line { text, values })
}

// `op_printf("..", ..);`, its word at the token t.
fn judged_line(
    source: &Source<'_>,
    k: &Declared,
    t: usize,
    l: &TextLiteral,
    values: &[Expr],
) -> Result<Act, BindRefusal>
    ensures { JudgesBy act_of result (unless_found
        (line_found source.now.places.now source.now.consts.now source.now.entries.now.entries
        t l.now (length values.now) (conversions l.now.text))
        (Line l.now.text (map (resolved source.now.places.now (declared_of k.now).names) (map expr_of values.now)))) }
{
    match conversions(l.text.bytes()) {
        None => Err(BindRefusal::TypeMismatch {
            at: place(source.places, l.at),
        }),
        Some(count) => {
            if count != values.len() {
                return Err(BindRefusal::ArgCount {
                    at: place(source.places, t),
                });
            }
            let line = line(source, k, l, values)?;
            Ok(line)
        }
    }
}

// `op_print_dat_to_txtfile(x, "..");`
fn judged_print(
    source: &Source<'_>,
    k: &Declared,
    x: &Ident,
    file: &TextLiteral,
) -> Result<Act, BindRefusal>
    ensures { JudgesBy act_of result (unless_found
        (found_if source.now.places.now (is_none (dat_of (means (declared_of k.now).names x.now.name)))
        x.now.at (λ at. BindRefusal.UnknownDat at))
        (Print (or_zero (dat_of (means (declared_of k.now).names x.now.name))) file.now.text)) }
{
    let dat = dat_of(k.names.means(&x.name));
    if dat.is_none() {
        return Err(BindRefusal::UnknownDat {
            at: place(source.places, x.at),
        });
    }
    Ok(Act::Print {
        dat: or_zero(dat),
        file: file.text.clone()?,
    })
}

// A call of the library.
fn judged_call(
    source: &Source<'_>,
    k: &mut Declared,
    steps: &mut Vec<Step>,
    spot: Spot,
    call: &OpCall,
) -> Result<(), BindRefusal>
    requires { SetsKnown (declared_of k.old) }
    ensures { Judges result (walked k.new steps.new.items)
        (judged_call source.now.places.now source.now.consts.now source.now.entries.now.entries
        (walked k.old steps.old.items) spot (call_of call.now)) }
{
    match call {
        OpCall::Init { .. } => Ok(()),
        OpCall::DeclSet { at, name, size, .. } => {
            judged_set(source, k, spot.is_nested, *at, name, size)
        }
        OpCall::DeclMap {
            at,
            name,
            from,
            to,
            dim,
            values,
            ..
        } => judged_map(source, k, spot.is_nested, *at, name, from, to, *dim, values),
        OpCall::DeclDat {
            at,
            name,
            set,
            dim,
            type_text,
            values,
            ..
        } => judged_dat(
            source,
            k,
            spot.is_nested,
            *at,
            name,
            set,
            *dim,
            type_text,
            values,
        ),
        OpCall::DeclConst {
            at,
            dim,
            type_text,
            variable,
        } => judged_constant(source, k, spot.is_nested, *at, *dim, type_text, variable),
        OpCall::ParLoop {
            at,
            kernel,
            set,
            args,
            ..
        } => {
            let number = next_site(k)?;
            judged_loop(source, k, *at, kernel, set, args)?;
            add_step(steps, Step::Loop(number))?;
            Ok(())
        }
        OpCall::Printf { at, text, values } => {
            let act = judged_line(source, k, *at, text, values)?;
            add_act(source.alloc, steps, act)?;
            Ok(())
        }
        OpCall::PrintDat { dat, file, .. } => {
            let act = judged_print(source, k, dat, file)?;
            add_act(source.alloc, steps, act)?;
            Ok(())
        }
    }
}

// Where the statements of a block or `if` stand.
fn nested(spot: Spot) -> Spot
    ensures { result ≡ nested spot }
{
    Spot {
        is_nested: true,
        in_for: spot.in_for,
    }
}

// A statement that is a part of another; behind it the names of sets still stand for those of the mesh.
#[cycle(judged_hosts)]
fn judged_part(
    source: &Source<'_>,
    host: &Host,
    k: &mut Declared,
    steps: &mut Vec<Step>,
    spot: Spot,
) -> Result<(), BindRefusal>
    requires { SetsKnown (declared_of k.old) }
    ensures judged { Judges result (walked k.new steps.new.items)
        (judged_host source.now.places.now source.now.consts.now source.now.entries.now.entries
        (walked k.old steps.old.items) spot (host_of host.now)) }
    ensures sets { OnOk result (SetsKnown (declared_of k.new)) }
{
    judged_host(source, host, k, steps, spot)
}

/// A statement of `main`.
#[cycle(judged_hosts)]
#[tactic(auto, using(crate::proofs::main_text::WalkTurns::host_block))]
fn judged_host(
    source: &Source<'_>,
    host: &Host,
    k: &mut Declared,
    steps: &mut Vec<Step>,
    spot: Spot,
) -> Result<(), BindRefusal>
    requires { SetsKnown (declared_of k.old) }
    ensures { Judges result (walked k.new steps.new.items)
        (judged_host source.now.places.now source.now.consts.now source.now.entries.now.entries
        (walked k.old steps.old.items) spot (host_of host.now)) }
{
    match host {
        Host::Declaration(v) => judged_declrs(source, k, steps, spot, v.is_const, &v.declrs),
        Host::Block { body, .. } => {
            let known = k.names.own.len();
            let told = k.names.told;
            let mut inner = Vec::new(source.alloc);
            judged_hosts(source, body, k, &mut inner, nested(spot))?;
            k.names.cut(known, told);
            add_step(steps, Step::block(inner))?;
            Ok(())
        }
        Host::Empty(_) => Ok(()),
        Host::Assign(a) => {
            let act = assignment(source, k, a)?;
            add_act(source.alloc, steps, act)?;
            Ok(())
        }
        Host::If {
            condition,
            then,
            ..
        } => {
            let test = judged_static(source.alloc, source.places, &k.names, condition)?;
            let mut inner = Vec::new(source.alloc);
            judged_host(source, then, k, &mut inner, nested(spot))?;
            add_step(
                steps,
                choose(source.alloc, test, inner, Vec::new(source.alloc))?,
            )?;
            Ok(())
        }
        Host::IfElse {
            condition,
            then,
            otherwise,
            ..
        } => {
            let test = judged_static(source.alloc, source.places, &k.names, condition)?;
            let mut inner = Vec::new(source.alloc);
            judged_part(source, then, k, &mut inner, nested(spot))?;
            let mut other = Vec::new(source.alloc);
            judged_host(source, otherwise, k, &mut other, nested(spot))?;
            add_step(steps, choose(source.alloc, test, inner, other)?)?;
            Ok(())
        }
        Host::For { header, body } => {
            let known = k.names.own.len();
            let told = k.names.told;
            let from = judged_static(source.alloc, source.places, &k.names, &header.from)?;
            with_counter(source, k, &header.name)?;
            let to = judged_static(source.alloc, source.places, &k.names, &header.to)?;
            let mut inner = Vec::new(source.alloc);
            let turning = Spot {
                is_nested: true,
                in_for: true,
            };
            judged_host(source, body, k, &mut inner, turning)?;
            k.names.cut(known, told);
            add_step(steps, repeat(source.alloc, from, to, inner)?)?;
            Ok(())
        }
        Host::Call(call) => judged_call(source, k, steps, spot, call),
    }
}

/// Statements of `main`, in order. The names of sets stand for those of the mesh.
#[cycle(judged_hosts)]
pub fn judged_hosts(
    source: &Source<'_>,
    all: &[Host],
    k: &mut Declared,
    steps: &mut Vec<Step>,
    spot: Spot,
) -> Result<(), BindRefusal>
    requires { SetsKnown (declared_of k.old) }
    ensures { Judges result (walked k.new steps.new.items)
        (judged_hosts source.now.places.now source.now.consts.now source.now.entries.now.entries
        (walked k.old steps.old.items) spot (hosts_of all.now)) }
{
    for host in all {
        judged_host(source, host, k, steps, spot)?;
    }
    Ok(())
}
