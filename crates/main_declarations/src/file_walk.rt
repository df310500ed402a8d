// The file before `main`, in the order of the text.

ghost use Rattle.std.specs.Prelude.{◌≡◌, suc, pos, true, length, replicate, map, OnOk};
ghost use Rattle.c_tree.specs.Tree.{Extern, ExternArray};
ghost use Rattle.c_tree.specs.View.{declr_of, top_of};
ghost use Rattle.main_declarations.specs.declared.names.scopes.Meaning.TheVariants.{Variable};
ghost use Rattle.main_declarations.specs.SoFar.{next_cells, with_var, with_file_name, changing};
ghost use Rattle.main_declarations.specs.Variables.{with_file_value, judged_file_declr, judged_file_declrs};
ghost use Rattle.main_declarations.specs.File.{judged_top, judged_tops};
ghost use Rattle.main_declarations.specs.KnownSets.{SetsKnown};
ghost use Rattle.main_declarations.specs.Walks.{declared_of};
ghost use Rattle.bound_program.specs.Refusals.{Judges};

use crate::names::{Declared, Meaning, Source, changing, judged_value, unchanging, zeros};
use bound_program::refusals::{BindRefusal, place};
use c_tree::{Declr, Ident, Kernel, Top};
use mesh_decl::Entry;
use op_num::{Name, OutOfMemory};
use std::alloc::{AllocError, Global};

// A variable of the file with so many cells of 0.
fn with_cells(
    alloc: Global,
    k: &mut Declared,
    name: &Name,
    is_array: bool,
    count: u32,
) -> Result<(), OutOfMemory>
    ensures { OnOk result (declared_of k.new ≡ with_file_name name.now
        (Variable (next_cells (declared_of k.old) true is_array count))
        (with_var (changing name.now (replicate count (pos 0))) (declared_of k.old))) }
{
    let cells = k.next_cells(true, is_array, count)?;
    let start = zeros(alloc, count)?;
    k.add_var(changing(name, start)?)?;
    k.names.declare_in_file(name, Meaning::Variable(cells))
}

// A variable of the file with its initializer.
fn with_value(
    source: &Source<'_>,
    k: &mut Declared,
    is_const: bool,
    name: &Name,
    value: i32,
) -> Result<(), OutOfMemory>
    ensures { OnOk result (declared_of k.new ≡
        with_file_value source.now.places.now source.now.consts.now (declared_of k.old) is_const name.now value) }
{
    let cells = k.next_cells(true, false, 1)?;
    if is_const {
        let constant = source.consts.first_cell(name);
        k.add_var(unchanging(source.alloc, name, value, constant)?)?;
        k.names.declare_in_file(name, Meaning::Fixed(value, cells))
    } else {
        let mut var = unchanging(source.alloc, name, value, None)?;
        var.is_const = false;
        k.add_var(var)?;
        k.names.declare_in_file(name, Meaning::Variable(cells))
    }
}

// A declarator of the file: without initializer its cells are 0.
fn judged_file_declr(
    source: &Source<'_>,
    k: &mut Declared,
    is_const: bool,
    declr: &Declr,
) -> Result<(), BindRefusal>
    ensures { Judges result (declared_of k.new)
        (judged_file_declr source.now.places.now source.now.consts.now (declared_of k.old) is_const (declr_of declr.now)) }
{
    match declr {
        Declr::Plain(x) => {
            with_cells(source.alloc, k, &x.name, false, 1)?;
            Ok(())
        }
        Declr::Init { name, value } => {
            let z = judged_value(source.alloc, source.places, &k.names, value)?;
            with_value(source, k, is_const, &name.name, z)?;
            Ok(())
        }
        Declr::Array { name, length } => {
            with_cells(
                source.alloc,
                k,
                &name.name,
                true,
                length.value.unsigned_abs(),
            )?;
            Ok(())
        }
    }
}

/// Declarators of the file, in order.
pub fn judged_file_declrs(
    source: &Source<'_>,
    k: &mut Declared,
    is_const: bool,
    declrs: &[Declr],
) -> Result<(), BindRefusal>
    ensures { Judges result (declared_of k.new)
        (judged_file_declrs source.now.places.now source.now.consts.now (declared_of k.old) is_const (map declr_of declrs.now)) }
{
    for declr in declrs {
        judged_file_declr(source, k, is_const, declr)?;
    }
    Ok(())
}

// `extern int x;` has an entry of one value.
fn judged_extern(source: &Source<'_>, k: &mut Declared, x: &Ident) -> Result<(), BindRefusal>
    ensures { Judges result (declared_of k.new)
        (judged_top source.now.places.now source.now.consts.now source.now.entries.now.entries (declared_of k.old) (Extern x.now)) }
{
    match source.entries.get(&x.name) {
        Some(Entry::One(z)) => {
            k.names.declare_in_file(&x.name, Meaning::Extern(*z))?;
            Ok(())
        }
        _ => Err(BindRefusal::UnknownEntry {
            at: place(source.places, x.at),
        }),
    }
}

// `extern int x[];` has an entry of many.
fn judged_array(source: &Source<'_>, k: &mut Declared, x: &Ident) -> Result<(), BindRefusal>
    ensures { Judges result (declared_of k.new)
        (judged_top source.now.places.now source.now.consts.now source.now.entries.now.entries
        (declared_of k.old) (ExternArray x.now)) }
{
    match source.entries.get(&x.name) {
        Some(Entry::Many(_)) => {
            k.names.declare_in_file(&x.name, Meaning::ExternArray)?;
            Ok(())
        }
        _ => Err(BindRefusal::UnknownEntry {
            at: place(source.places, x.at),
        }),
    }
}

// One kernel more.
fn with_kernel(k: &mut Declared, f: &Kernel) -> Result<(), OutOfMemory>
    ensures { OnOk result (declared_of k.new ≡ record
        (with_file_name f.now.name.name (Meaning.Kernel k.old.kernels (length f.now.params.items)) (declared_of k.old))
        { kernels = suc k.old.kernels }) }
{
    let number = k.kernels;
    let Some(kernels) = number.checked_add(1) else {
        return Err(AllocError);
    };
    let params = f.params.len();
    k.names
        .declare_in_file(&f.name.name, Meaning::Kernel { number, params })?;
    k.kernels = kernels;
    Ok(())
}

/// A part of the file.
pub fn judged_top(source: &Source<'_>, k: &mut Declared, top: &Top) -> Result<(), BindRefusal>
    ensures { Judges result (declared_of k.new)
        (judged_top source.now.places.now source.now.consts.now source.now.entries.now.entries (declared_of k.old) (top_of top.now)) }
{
    match top {
        Top::Extern(x) => judged_extern(source, k, x),
        Top::ExternArray(x) => judged_array(source, k, x),
        Top::Declaration(v) => judged_file_declrs(source, k, v.is_const, &v.declrs),
        Top::Kernel(f) => {
            with_kernel(k, f)?;
            Ok(())
        }
    }
}

/// The file before `main`, in order. Where names of sets stand for those of the mesh, they still do.
pub fn judged_tops(source: &Source<'_>, k: &mut Declared, tops: &[Top]) -> Result<(), BindRefusal>
    ensures sets { SetsKnown (declared_of k.old) → OnOk result (SetsKnown (declared_of k.new)) }
    ensures judged { Judges result (declared_of k.new)
        (judged_tops source.now.places.now source.now.consts.now source.now.entries.now.entries
        (declared_of k.old) (map top_of tops.now)) }
{
    for top in tops {
        judged_top(source, k, top)?;
    }
    Ok(())
}
