// The globals of loops.

ghost use Rattle.std.specs.Prelude.{◌≡◌, ◌++◌, ◌∷◌, [], None, length, IfOk, OnOk};
ghost use Rattle.std.specs.Map.{lookup};
ghost use Rattle.std.specs.Str.{bytes_eq};
ghost use Rattle.bound_program.specs.Values.{var_of};
ghost use Rattle.main_declarations.specs.Meanings.{or_zero};
ghost use Rattle.main_declarations.specs.SoFar.{with_var};
ghost use Rattle.loop_bind.specs.Arguments.{slot_constant, global_of, extern_var, with_extern, after_global, after_globals};
ghost use Rattle.main_declarations.specs.Walks.{declared_of};

use bound_program::Var;
use c_tree::LoopArg;
use indexmap::IndexMap;
use main_declarations::names::{Cells, Declared, Meaning, Source, values_named};
use mesh_decl::Values;
use op_num::{Name, OutOfMemory};
use std::alloc::AllocError;

/// A variable that can be a global; the cells of one that is kept never change in a kernel.
#[derive(Clone, Copy, PartialEq, Eq, Debug)]
pub struct GlobalVar {
    pub var: u32,
    pub count: usize,
    pub is_array: bool,
    pub is_kept: bool,
}

// The variable of an extern, or 0 where it is none.
fn extern_of(k: &Declared, name: &Name) -> u32
    ensures { result ≡ or_zero (lookup (bytes_eq name.now) (declared_of k.now).externs) }
{
    match k.externs.get(name) {
        Some(var) => *var,
        None => 0,
    }
}

// Whether kernels read the variable as a constant.
#[tactic(auto, using(crate::proofs::main_text::WalkTurns::constant_in, crate::proofs::main_text::WalkTurns::constant_none))]
fn is_constant(k: &Declared, var: u32) -> bool
    ensures { result ≡ slot_constant (declared_of k.now).vars var }
{
    let var = var as usize;
    if var < k.vars.len() {
        k.vars[var].constant.is_some()
    } else {
        false
    }
}

fn by_cells(cells: Cells, is_kept: bool) -> GlobalVar
    ensures { result ≡ record { var = cells.var; count = cells.count; is_array = cells.is_array; is_kept = is_kept } }
{
    GlobalVar {
        var: cells.var,
        count: cells.count as usize,
        is_array: cells.is_array,
        is_kept,
    }
}

/// A global by its name, where externs that stand in the loop are variables already.
pub fn global_of(source: &Source<'_>, k: &Declared, name: &Name) -> Option<GlobalVar>
    ensures { result ≡ global_of source.now.entries.now.entries (declared_of k.now) name.now }
{
    match k.names.means(name) {
        Some(Meaning::Extern(_)) => Some(GlobalVar {
            var: extern_of(k, name),
            count: 1,
            is_array: false,
            is_kept: true,
        }),
        Some(Meaning::ExternArray) => Some(GlobalVar {
            var: extern_of(k, name),
            count: values_named(source.entries, name).len(),
            is_array: true,
            is_kept: true,
        }),
        Some(Meaning::Variable(cells)) => {
            let is_kept = is_constant(k, cells.var);
            Some(by_cells(cells, is_kept))
        }
        Some(Meaning::Fixed(_, cells)) => Some(by_cells(cells, true)),
        Some(Meaning::FixedLater(_, cells)) => Some(by_cells(cells, true)),
        _ => None,
    }
}

// Adds a name that isn't there yet.
fn insert_new(names: &mut IndexMap<Name, u32>, name: Name, var: u32) -> Result<(), OutOfMemory>
    requires { lookup (bytes_eq name) names.old.entries ≡ None }
    ensures { OnOk result (names.new.entries ≡ names.old.entries ++ (name, var) ∷ []) }
{
    match names.insert(name, var) {
        Ok(_) => Ok(()),
        Err(_) => Err(AllocError),
    }
}

// The variable of an extern.
fn extern_var(source: &Source<'_>, name: &Name, values: &[i32]) -> Result<Var, OutOfMemory>
    ensures { IfOk result (λ v. var_of v ≡ extern_var name.now values.now) }
{
    let start = Values::new(values.to_vec(source.alloc)?);
    Ok(Var {
        name: name.clone()?,
        start,
        constant: None,
        is_const: true,
    })
}

// An extern that isn't a variable yet becomes one.
fn add_extern(k: &mut Declared, name: &Name, var: Var) -> Result<(), OutOfMemory>
    requires { lookup (bytes_eq name.now) k.old.externs.entries ≡ None }
    ensures { OnOk result (declared_of k.new ≡ record (with_var (var_of var) (declared_of k.old))
        { externs = k.old.externs.entries ++ (name.now, length (declared_of k.old).vars) ∷ [] }) }
{
    let number = k.next_var()?;
    let key = name.clone()?;
    k.add_var(var)?;
    insert_new(&mut k.externs, key, number)
}

// An extern becomes a variable, where it isn't one.
fn with_extern(
    source: &Source<'_>,
    k: &mut Declared,
    name: &Name,
    values: &[i32],
) -> Result<(), OutOfMemory>
    ensures { OnOk result (declared_of k.new ≡ with_extern name.now values.now (declared_of k.old)) }
{
    if k.externs.contains_key(name) {
        return Ok(());
    }
    let var = extern_var(source, name, values)?;
    add_extern(k, name, var)
}

// An extern that is a global becomes a variable.
fn after_global(source: &Source<'_>, k: &mut Declared, arg: &LoopArg) -> Result<(), OutOfMemory>
    ensures { OnOk result (declared_of k.new ≡ after_global source.now.entries.now.entries arg.now (declared_of k.old)) }
{
    match arg {
        LoopArg::Dat { .. } => Ok(()),
        LoopArg::Global { global, .. } => match k.names.means(&global.name.name) {
            Some(Meaning::Extern(z)) => with_extern(source, k, &global.name.name, &[z]),
            Some(Meaning::ExternArray) => {
                let values = values_named(source.entries, &global.name.name);
                with_extern(source, k, &global.name.name, values)
            }
            _ => Ok(()),
        },
    }
}

/// The externs that are globals of a loop become variables, in order.
pub fn after_globals(
    source: &Source<'_>,
    k: &mut Declared,
    args: &[LoopArg],
) -> Result<(), OutOfMemory>
    ensures { OnOk result (declared_of k.new ≡ after_globals source.now.entries.now.entries args.now (declared_of k.old)) }
{
    for arg in args {
        after_global(source, k, arg)?;
    }
    Ok(())
}
