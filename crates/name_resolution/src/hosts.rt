// The statements of `main`: the rules that they break, and the names that they declare constant.

ghost use Rattle.std.specs.Prelude.{◌≡◌, ◌++◌, map, false, IfOk};
ghost use Rattle.c_tree.specs.View.{expr_of, declr_of, place_of, call_of, host_for_header_of, host_of, hosts_of};
ghost use Rattle.name_resolution.specs.First.{least_from};
ghost use Rattle.name_resolution.specs.Scopes.{scope, repeated};
ghost use Rattle.name_resolution.specs.Mains.{declr_name, declr_sort, is_wrong_size, size_breaches, init_breaches, with_name};
ghost use Rattle.name_resolution.specs.Mains.{with_host_counter, own_after_declrs, own_after_call, own_after, own_after_all, named_by_call};
ghost use Rattle.name_resolution.specs.Mains.{named_after, named_after_all, fix, is_fixed, fixed_by_call, fixed_after, fixed_after_all};
ghost use Rattle.name_resolution.specs.Mains.{declr_breaches, main_declrs_breaches, exprs_breaches, call_breaches, header_breaches};
ghost use Rattle.name_resolution.specs.Mains.{place_name, host_breaches, hosts_breaches, named_with};
ghost use Rattle.name_resolution.specs.Kernels.{expr_breaches};

use crate::assignments::judge_assignment;
use crate::breaches::{Breach, TypeRule, note_if};
use crate::decls::{Decl, Scope, Sort, declare};
use crate::expressions::judge_expr;
use crate::work::size_of;
use c_tree::{Declr, Expr, Host, HostForHeader, Ident, OpCall, Place};
use indexmap::{IndexMap, IndexSet};
use op_num::{Name, OutOfMemory};
use std::alloc::AllocError;

/// What going through `main` has come to: its own names, the declarations that an `op_decl_const` named, by their
/// tokens, the names of the file that one named, and the first breach.
#[derive(Drop)]
pub struct MainWalk {
    pub own: IndexMap<Name, Decl>,
    pub fixed: IndexSet<usize>,
    pub named: IndexSet<Name>,
    pub first: Option<Breach>,
}

/// The name of a declarator.
pub fn declr_name(declr: &Declr) -> &Ident
    ensures { result.now ≡ declr_name (declr_of declr.now) }
{
    match declr {
        Declr::Plain(name) => name,
        Declr::Init { name, .. } => name,
        Declr::Array { name, .. } => name,
    }
}

/// What a declarator declares.
pub fn declr_sort(declr: &Declr) -> Sort
    ensures { result ≡ declr_sort (declr_of declr.now) }
{
    match declr {
        Declr::Array { .. } => Sort::Array,
        _ => Sort::Scalar,
    }
}

/// Whether an array outside of kernels has no cell or too many.
pub fn is_wrong_size(count: u32) -> bool
    ensures { result ≡ is_wrong_size count }
{
    count == 0 || count > 1024
}

// Judges the size of an array.
fn judge_size(first: &mut Option<Breach>, declr: &Declr)
    ensures { first.new ≡ least_from first.old (size_breaches (declr_of declr.now)) }
{
    match declr {
        Declr::Array { name, length } => {
            let is_wrong = is_wrong_size(size_of(*length));
            note_if(first, is_wrong, TypeRule::TooMuchWork, name.at);
        }
        _ => {}
    }
}

// Judges an initializer.
fn judge_init(first: &mut Option<Breach>, known: Scope<'_>, declr: &Declr)
    ensures { first.new ≡ least_from first.old
        (init_breaches (scope known.entry.file.now.entries known.entry.own.now.entries) (declr_of declr.now)) }
{
    match declr {
        Declr::Init { value, .. } => judge_expr(first, known, false, value),
        _ => {}
    }
}

/// Judges the initializer and the size of a declarator outside of kernels.
#[tactic(auto, using(crate::proofs::Firsts::least_append))]
pub fn judge_declr(first: &mut Option<Breach>, known: Scope<'_>, declr: &Declr)
    ensures { first.new ≡ least_from first.old
        (declr_breaches (scope known.entry.file.now.entries known.entry.own.now.entries) (declr_of declr.now)) }
{
    judge_init(first, known, declr);
    judge_size(first, declr);
}

// Declares a name of main.
fn declare_name(
    own: &mut IndexMap<Name, Decl>,
    first: &mut Option<Breach>,
    is_const: bool,
    sort: Sort,
    name: &Ident,
) -> Result<(), OutOfMemory>
    ensures own { IfOk result (λ _. own.new.entries ≡ with_name own.old.entries is_const sort name.now) }
    ensures first { IfOk result (λ _. first.new ≡ least_from first.old (repeated name.now own.old.entries)) }
{
    let decl = Decl {
        at: name.at,
        sort,
        is_const,
        of_file: false,
        is_constant: false,
        from: 0,
        count: 0,
    };
    declare(own, first, name, decl)
}

// A declarator of main.
#[tactic(auto, using(crate::proofs::Firsts::least_append))]
fn declare_declr(
    file: &IndexMap<Name, Decl>,
    own: &mut IndexMap<Name, Decl>,
    first: &mut Option<Breach>,
    is_const: bool,
    declr: &Declr,
) -> Result<(), OutOfMemory>
    ensures own { IfOk result (λ _.
        own.new.entries ≡ with_name own.old.entries is_const
        (declr_sort (declr_of declr.now)) (declr_name (declr_of declr.now))) }
    ensures first { IfOk result (λ _.
        first.new ≡ least_from first.old
        (declr_breaches (scope file.now.entries own.old.entries) (declr_of declr.now)
        ++ repeated (declr_name (declr_of declr.now)) own.old.entries)) }
{
    judge_declr(first, Scope { file, own }, declr);
    declare_name(own, first, is_const, declr_sort(declr), declr_name(declr))
}

// Declarators of main, in the order of the text.
fn declare_declrs(
    file: &IndexMap<Name, Decl>,
    own: &mut IndexMap<Name, Decl>,
    first: &mut Option<Breach>,
    is_const: bool,
    declrs: &[Declr],
) -> Result<(), OutOfMemory>
    ensures own { IfOk result (λ _. own.new.entries ≡ own_after_declrs own.old.entries is_const (map declr_of declrs.now)) }
    ensures first { IfOk result (λ _.
        first.new ≡ least_from first.old
        (main_declrs_breaches file.now.entries own.old.entries is_const (map declr_of declrs.now))) }
{
    for declr in declrs {
        declare_declr(file, own, first, is_const, declr)?;
    }
    Ok(())
}

// Judges expressions.
fn judge_exprs(first: &mut Option<Breach>, known: Scope<'_>, exprs: &[Expr])
    ensures { first.new ≡ least_from first.old
        (exprs_breaches known.entry.file.now.entries known.entry.own.now.entries (map expr_of exprs.now)) }
{
    for expr in exprs {
        judge_expr(first, known, false, expr);
    }
}

// Notes that an `op_decl_const` names a declaration, by its token.
fn fix(fixed: &mut IndexSet<usize>, meaning: Option<Decl>) -> Result<(), OutOfMemory>
    ensures { IfOk result (λ _. fixed.new.keys ≡ fix meaning fixed.old.keys) }
{
    match meaning {
        None => Ok(()),
        Some(decl) => match fixed.insert(decl.at) {
            Ok(_) => Ok(()),
            Err(_) => Err(AllocError),
        },
    }
}

// Notes that an `op_decl_const` names a name of the file, where none of main hides it.
fn name(
    named: &mut IndexSet<Name>,
    own: &IndexMap<Name, Decl>,
    name: &Name,
) -> Result<(), OutOfMemory>
    ensures { IfOk result (λ _. named.new.keys ≡ named_with own.now.entries named.old.keys name.now) }
{
    if own.contains_key(name) {
        return Ok(());
    }
    match named.insert(name.clone()?) {
        Ok(_) => Ok(()),
        Err(_) => Err(AllocError),
    }
}

// Whether an `op_decl_const` so far named a declaration.
fn is_fixed(fixed: &IndexSet<usize>, meaning: Option<Decl>) -> bool
    ensures { result ≡ is_fixed meaning fixed.now.keys }
{
    match meaning {
        None => false,
        Some(decl) => fixed.contains(&decl.at),
    }
}

// A call of the library.
#[tactic(auto, using(crate::proofs::Firsts::least_append))]
fn call(file: &IndexMap<Name, Decl>, main: &mut MainWalk, call: &OpCall) -> Result<(), OutOfMemory>
    ensures own { IfOk result (λ _. main.new.own.entries ≡ own_after_call main.old.own.entries (call_of call.now)) }
    ensures fixed { IfOk result (λ _.
        main.new.fixed.keys ≡ fixed_by_call file.now.entries main.old.own.entries main.old.fixed.keys
        (call_of call.now)) }
    ensures named { IfOk result (λ _. main.new.named.keys ≡ named_by_call main.old.own.entries main.old.named.keys (call_of call.now)) }
    ensures first { IfOk result (λ _.
        main.new.first ≡ least_from main.old.first
        (call_breaches file.now.entries main.old.own.entries (call_of call.now))) }
{
    match call {
        OpCall::Init { .. } => Ok(()),
        OpCall::DeclSet { name, size, .. } => {
            let known = Scope {
                file,
                own: &main.own,
            };
            judge_expr(&mut main.first, known, false, size);
            declare_name(&mut main.own, &mut main.first, false, Sort::Set, name)
        }
        OpCall::DeclMap { name, .. } => {
            declare_name(&mut main.own, &mut main.first, false, Sort::Map, name)
        }
        OpCall::DeclDat { name, .. } => {
            declare_name(&mut main.own, &mut main.first, false, Sort::Dat, name)
        }
        OpCall::DeclConst { variable, .. } => {
            let known = Scope {
                file,
                own: &main.own,
            };
            let meaning = known.means(&variable.name.name);
            fix(&mut main.fixed, meaning)?;
            name(&mut main.named, &main.own, &variable.name.name)
        }
        OpCall::ParLoop { .. } => Ok(()),
        OpCall::Printf { values, .. } => {
            let known = Scope {
                file,
                own: &main.own,
            };
            judge_exprs(&mut main.first, known, values);
            Ok(())
        }
        OpCall::PrintDat { .. } => Ok(()),
    }
}

// The name of a target.
fn place_name(place: &Place) -> &Ident
    ensures { result.now ≡ place_name (place_of place.now) }
{
    match place {
        Place::Name(name) => name,
        Place::Index { name, .. } => name,
        Place::Deref { name, .. } => name,
    }
}

// Judges an expression of main.
fn judge_value(file: &IndexMap<Name, Decl>, main: &mut MainWalk, expr: &Expr)
    ensures first { main.new.first ≡ least_from main.old.first
        (expr_breaches false (scope file.now.entries main.old.own.entries) (expr_of expr.now)) }
    ensures rest { main.new ≡ record main.old { first = main.new.first } }
{
    let known = Scope {
        file,
        own: &main.own,
    };
    judge_expr(&mut main.first, known, false, expr);
}

// The head of a `for`.
#[tactic(auto, using(crate::proofs::Firsts::least_append))]
fn host_header(
    file: &IndexMap<Name, Decl>,
    main: &mut MainWalk,
    header: &HostForHeader,
) -> Result<(), OutOfMemory>
    ensures own { IfOk result (λ _. main.new.own.entries ≡ with_host_counter main.old.own.entries (host_for_header_of header.now)) }
    ensures fixed { IfOk result (λ _. main.new.fixed.keys ≡ main.old.fixed.keys) }
    ensures named { IfOk result (λ _. main.new.named.keys ≡ main.old.named.keys) }
    ensures first { IfOk result (λ _.
        main.new.first ≡ least_from main.old.first
        (header_breaches file.now.entries main.old.own.entries (host_for_header_of header.now))) }
{
    judge_value(file, main, &header.from);
    declare_name(
        &mut main.own,
        &mut main.first,
        false,
        Sort::Counter,
        &header.name,
    )?;
    judge_value(file, main, &header.to);
    Ok(())
}

// A statement of main.
#[tactic(auto, using(crate::proofs::Firsts::least_append))]
#[cycle(hosts)]
fn host(
    file: &IndexMap<Name, Decl>,
    main: &mut MainWalk,
    statement: &Host,
) -> Result<(), OutOfMemory>
    ensures own { IfOk result (λ _. main.new.own.entries ≡ own_after main.old.own.entries (host_of statement.now)) }
    ensures fixed { IfOk result (λ _.
        main.new.fixed.keys ≡ fixed_after file.now.entries main.old.own.entries main.old.fixed.keys
        (host_of statement.now)) }
    ensures named { IfOk result (λ _. main.new.named.keys ≡ named_after main.old.own.entries main.old.named.keys (host_of statement.now)) }
    ensures first { IfOk result (λ _.
        main.new.first ≡ least_from main.old.first
        (host_breaches file.now.entries main.old.own.entries main.old.fixed.keys (host_of statement.now))) }
{
    match statement {
        Host::Declaration(declaration) => declare_declrs(
            file,
            &mut main.own,
            &mut main.first,
            declaration.is_const,
            &declaration.declrs,
        ),
        Host::Block { body, .. } => {
            let known = main.own.len();
            hosts(file, main, body)?;
            main.own.truncate(known);
            Ok(())
        }
        Host::Empty(_) => Ok(()),
        Host::Assign(assignment) => {
            let known = Scope {
                file,
                own: &main.own,
            };
            let target = known.means(&place_name(&assignment.place).name);
            let is_fixed = is_fixed(&main.fixed, target);
            judge_assignment(&mut main.first, known, false, is_fixed, assignment);
            Ok(())
        }
        Host::If {
            condition,
            then,
            ..
        } => {
            judge_value(file, main, condition);
            host(file, main, then)
        }
        Host::IfElse {
            condition,
            then,
            otherwise,
            ..
        } => {
            judge_value(file, main, condition);
            host(file, main, then)?;
            host(file, main, otherwise)
        }
        Host::For { header, body } => {
            let known = main.own.len();
            host_header(file, main, header)?;
            host(file, main, body)?;
            main.own.truncate(known);
            Ok(())
        }
        Host::Call(one) => call(file, main, one),
    }
}

/// Statements of `main`, in the order of the text, behind these names of the file.
#[cycle(hosts)]
pub fn hosts(
    file: &IndexMap<Name, Decl>,
    main: &mut MainWalk,
    all: &[Host],
) -> Result<(), OutOfMemory>
    ensures own { IfOk result (λ _. main.new.own.entries ≡ own_after_all main.old.own.entries (hosts_of all.now)) }
    ensures fixed { IfOk result (λ _.
        main.new.fixed.keys ≡ fixed_after_all file.now.entries main.old.own.entries main.old.fixed.keys
        (hosts_of all.now)) }
    ensures named { IfOk result (λ _. main.new.named.keys ≡ named_after_all main.old.own.entries main.old.named.keys (hosts_of all.now)) }
    ensures first { IfOk result (λ _.
        main.new.first ≡ least_from main.old.first
        (hosts_breaches file.now.entries main.old.own.entries main.old.fixed.keys (hosts_of all.now))) }
{
    for statement in all {
        host(file, main, statement)?;
    }
    Ok(())
}
