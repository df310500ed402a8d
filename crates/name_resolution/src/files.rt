// The parts of the file before `main`: the rules that they break, and the names and kernels that they declare.

ghost use Rattle.std.specs.Prelude.{◌≡◌, ◌++◌, [], map, IfOk};
ghost use Rattle.c_tree.specs.View.{declr_of, top_of};
ghost use Rattle.name_resolution.specs.First.{least_from};
ghost use Rattle.name_resolution.specs.Scopes.{scope, declared, repeated};
ghost use Rattle.name_resolution.specs.Numbers.{KernelsFit};
ghost use Rattle.kernel_model.specs.View.{rkernel_of};
ghost use Rattle.name_resolution.specs.Mains.{declr_name, declr_breaches};
ghost use Rattle.name_resolution.specs.Programs.{constant_cells, constants, added_cells, constant_of, declr_count, other_decl};
ghost use Rattle.name_resolution.specs.Programs.{variable_decl, with_variable, after_variables, after_top, after_tops, variables_breaches};
ghost use Rattle.name_resolution.specs.Programs.{top_breaches, tops_breaches, kernels, kernels_of};

use crate::breaches::Breach;
use crate::decls::{Decl, Scope, Sort, declare};
use crate::hosts::{declr_name, declr_sort, is_wrong_size, judge_declr};
use crate::kernels::kernel;
use crate::work::size_of;
use c_tree::{Declr, Ident, Pos, Top};
use indexmap::{IndexMap, IndexSet};
use kernel_model::types::{ConstDecl, RKernel};
use op_num::{Name, OutOfMemory};
use std::alloc::{AllocError, Global};

/// What going through the file has come to: its names, how many cells the constants among them have, the kernels, and
/// the first breach.
#[derive(Drop)]
pub struct FileWalk {
    pub names: IndexMap<Name, Decl>,
    pub constant_cells: u32,
    pub kernels: Vec<RKernel>,
    pub first: Option<Breach>,
}

// How many cells a declarator of the file has; an array of a wrong size, which is a breach, has none.
fn declr_count(declr: &Declr) -> u32
    ensures { result ≡ declr_count (declr_of declr.now) }
{
    match declr {
        Declr::Array { length, .. } => {
            let count = size_of(*length);
            if is_wrong_size(count) { 0 } else { count }
        }
        _ => 1,
    }
}

// How many cells of constants a declaration adds, where its name is a new one or not.
fn added_cells(is_new: bool, decl: Decl) -> u32
    ensures { result ≡ added_cells is_new decl }
{
    if is_new && decl.is_constant {
        decl.count
    } else {
        0
    }
}

// Declares a name of the file. More than 2 ^ 32 - 1 cells of constants are answered as want of memory.
#[tactic(auto, using(crate::proofs::Constants::cells_declared))]
fn declare_decl(walk: &mut FileWalk, name: &Ident, decl: Decl) -> Result<(), OutOfMemory>
    requires { constant_cells walk.old.names.entries ≡ walk.old.constant_cells }
    ensures names { IfOk result (λ _. walk.new.names.entries ≡ declared name.now.name decl walk.old.names.entries) }
    ensures cells { IfOk result (λ _. constant_cells walk.new.names.entries ≡ walk.new.constant_cells) }
    ensures kernels { IfOk result (λ _. walk.new.kernels.items ≡ walk.old.kernels.items) }
    ensures first { IfOk result (λ _. walk.new.first ≡ least_from walk.old.first (repeated name.now walk.old.names.entries)) }
{
    let is_new = !walk.names.contains_key(&name.name);
    let Some(cells) = walk.constant_cells.checked_add(added_cells(is_new, decl)) else {
        return Err(AllocError);
    };
    declare(&mut walk.names, &mut walk.first, name, decl)?;
    walk.constant_cells = cells;
    Ok(())
}

// Declares what is no variable.
fn declare_other(walk: &mut FileWalk, sort: Sort, name: &Ident) -> Result<(), OutOfMemory>
    requires { constant_cells walk.old.names.entries ≡ walk.old.constant_cells }
    ensures names { IfOk result (λ _.
        walk.new.names.entries ≡ declared name.now.name (other_decl sort name.now.at) walk.old.names.entries) }
    ensures cells { IfOk result (λ _. constant_cells walk.new.names.entries ≡ walk.new.constant_cells) }
    ensures kernels { IfOk result (λ _. walk.new.kernels.items ≡ walk.old.kernels.items) }
    ensures first { IfOk result (λ _. walk.new.first ≡ least_from walk.old.first (repeated name.now walk.old.names.entries)) }
{
    let decl = Decl {
        at: name.at,
        sort,
        is_const: false,
        of_file: true,
        is_constant: false,
        from: 0,
        count: 0,
    };
    declare_decl(walk, name, decl)
}

// The declaration of a variable of the file, its first cell given.
fn variable_decl(named: &IndexSet<Name>, is_const: bool, from: u32, declr: &Declr) -> Decl
    ensures { result ≡ variable_decl named.now.keys is_const from (declr_of declr.now) }
{
    let name = declr_name(declr);
    Decl {
        at: name.at,
        sort: declr_sort(declr),
        is_const,
        of_file: true,
        is_constant: is_const || named.contains(&name.name),
        from,
        count: declr_count(declr),
    }
}

// Declares a variable of the file.
#[tactic(auto, using(crate::proofs::Firsts::least_append))]
fn declare_variable(
    alloc: Global,
    walk: &mut FileWalk,
    named: &IndexSet<Name>,
    is_const: bool,
    declr: &Declr,
) -> Result<(), OutOfMemory>
    requires { constant_cells walk.old.names.entries ≡ walk.old.constant_cells }
    ensures names { IfOk result (λ _.
        walk.new.names.entries ≡ with_variable named.now.keys is_const walk.old.names.entries (declr_of declr.now)) }
    ensures cells { IfOk result (λ _. constant_cells walk.new.names.entries ≡ walk.new.constant_cells) }
    ensures kernels { IfOk result (λ _. walk.new.kernels.items ≡ walk.old.kernels.items) }
    ensures first { IfOk result (λ _.
        walk.new.first ≡ least_from walk.old.first
        (declr_breaches (scope walk.old.names.entries []) (declr_of declr.now)
        ++ repeated (declr_name (declr_of declr.now)) walk.old.names.entries)) }
{
    let own = IndexMap::new(alloc);
    let known = Scope {
        file: &walk.names,
        own: &own,
    };
    judge_declr(&mut walk.first, known, declr);
    let decl = variable_decl(named, is_const, walk.constant_cells, declr);
    declare_decl(walk, declr_name(declr), decl)
}

// Declares variables of the file, in the order of the text.
fn declare_variables(
    alloc: Global,
    walk: &mut FileWalk,
    named: &IndexSet<Name>,
    is_const: bool,
    declrs: &[Declr],
) -> Result<(), OutOfMemory>
    requires { constant_cells walk.old.names.entries ≡ walk.old.constant_cells }
    ensures names { IfOk result (λ _.
        walk.new.names.entries ≡ after_variables named.now.keys is_const walk.old.names.entries
        (map declr_of declrs.now)) }
    ensures cells { IfOk result (λ _. constant_cells walk.new.names.entries ≡ walk.new.constant_cells) }
    ensures kernels { IfOk result (λ _. walk.new.kernels.items ≡ walk.old.kernels.items) }
    ensures first { IfOk result (λ _.
        walk.new.first ≡ least_from walk.old.first
        (variables_breaches named.now.keys is_const walk.old.names.entries (map declr_of declrs.now))) }
{
    for declr in declrs {
        declare_variable(alloc, walk, named, is_const, declr)?;
    }
    Ok(())
}

// A part of the file.
#[tactic(auto, using(crate::proofs::Firsts::least_append, crate::proofs::FileTurns::kernels_push))]
fn top(
    alloc: Global,
    places: &[Pos],
    walk: &mut FileWalk,
    named: &IndexSet<Name>,
    part: &Top,
) -> Result<(), OutOfMemory>
    requires cells { constant_cells walk.old.names.entries ≡ walk.old.constant_cells }
    requires fits { KernelsFit (map rkernel_of walk.old.kernels.items) }
    ensures fits { IfOk result (λ _. KernelsFit (map rkernel_of walk.new.kernels.items)) }
    ensures names { IfOk result (λ _. walk.new.names.entries ≡ after_top named.now.keys walk.old.names.entries (top_of part.now)) }
    ensures cells { IfOk result (λ _. constant_cells walk.new.names.entries ≡ walk.new.constant_cells) }
    ensures kernels { IfOk result (λ _.
        map rkernel_of walk.new.kernels.items ≡ map rkernel_of
        walk.old.kernels.items ++ kernels_of named.now.keys places.now walk.old.names.entries (top_of part.now)) }
    ensures first { IfOk result (λ _.
        walk.new.first ≡ least_from walk.old.first
        (top_breaches named.now.keys walk.old.names.entries (top_of part.now))) }
{
    match part {
        Top::Extern(name) => declare_other(walk, Sort::Extern, name),
        Top::ExternArray(name) => declare_other(walk, Sort::ExternArray, name),
        Top::Declaration(declaration) => {
            declare_variables(
                alloc,
                walk,
                named,
                declaration.is_const,
                &declaration.declrs,
            )
        }
        Top::Kernel(source) => {
            declare_other(walk, Sort::Kernel, &source.name)?;
            let kernel = kernel(alloc, places, &walk.names, &mut walk.first, source)?;
            walk.kernels.push(kernel)?;
            Ok(())
        }
    }
}

/// The parts of the file, in the order of the text, where an `op_decl_const` names these names.
pub fn tops(
    alloc: Global,
    places: &[Pos],
    walk: &mut FileWalk,
    named: &IndexSet<Name>,
    parts: &[Top],
) -> Result<(), OutOfMemory>
    requires cells { constant_cells walk.old.names.entries ≡ walk.old.constant_cells }
    requires fits { KernelsFit (map rkernel_of walk.old.kernels.items) }
    ensures fits { IfOk result (λ _. KernelsFit (map rkernel_of walk.new.kernels.items)) }
    ensures names { IfOk result (λ _. walk.new.names.entries ≡ after_tops named.now.keys walk.old.names.entries (map top_of parts.now)) }
    ensures kernels { IfOk result (λ _.
        map rkernel_of walk.new.kernels.items ≡ map rkernel_of
        walk.old.kernels.items ++ kernels named.now.keys places.now walk.old.names.entries (map top_of parts.now)) }
    ensures first { IfOk result (λ _.
        walk.new.first ≡ least_from walk.old.first
        (tops_breaches named.now.keys walk.old.names.entries (map top_of parts.now))) }
{
    for part in parts {
        top(alloc, places, walk, named, part)?;
    }
    Ok(())
}

// Adds the constant that a name of the file is, where it is one.
fn add_constant(constants: &mut Vec<ConstDecl>, name: &Name, decl: Decl) -> Result<(), OutOfMemory>
    ensures { IfOk result (λ _. constants.new.items ≡ constants.old.items ++ constant_of name.now decl) }
{
    if decl.is_constant {
        let name = name.clone()?;
        constants.push(ConstDecl {
            name,
            from: decl.from,
            count: decl.count,
        })?;
    }
    Ok(())
}

/// The constants among names of the file.
pub fn constants(alloc: Global, names: &IndexMap<Name, Decl>) -> Result<Vec<ConstDecl>, OutOfMemory>
    ensures { IfOk result (λ v. v.items ≡ constants names.now.entries) }
{
    let mut constants = Vec::new(alloc);
    for number in 0..names.len() {
        let Some((name, decl)) = names.get_index(number) else {
            return Ok(constants);
        };
        add_constant(&mut constants, name, *decl)?;
    }
    Ok(constants)
}
