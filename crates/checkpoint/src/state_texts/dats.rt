// The dats of a state text.
ghost use Rattle.std.specs.Prelude.{◌≡◌, ◌<◌, ◌++◌, ℕ, map, IfOk, OnOk, length, codes};
ghost use Rattle.std.specs.List.{flat_map};
ghost use Rattle.mesh_decl.specs.declared.decl.DatDecl.{DatDecl};
ghost use Rattle.mesh_decl.specs.Mesh.{dat_count, dat_values};
ghost use Rattle.bound_program.specs.Values.{BoundValue};
ghost use Rattle.run_model.specs.Windows.{numbers};
ghost use Rattle.checkpoint.specs.Reading.{Values as ValuesLine, dat_line, awaited_dat, awaited_dats};
ghost use Rattle.checkpoint.specs.Judged.{JudgesAmong, PushJudges};

use crate::state_texts::lines::{take_exactly, take_values};
use crate::state_texts::refusals::StateRefusal;
use mesh_decl::{Mesh, Values};
use op_num::texts::line_texts::Lines;
use op_num::{OutOfMemory, put_u64};
use std::alloc::Global;

// Writes the first line of a dat, without its LF.
fn write_dat_line(text: &mut Vec<u8>, mesh: &Mesh, dat: u32) -> Result<(), OutOfMemory>
    requires { dat < dat_count mesh.now }
    ensures { OnOk result (text.new.items ++ codes "\n" ≡ dat_line mesh.now dat) }
{
    mesh.is_in_range();
    let (set, dim) = mesh.dat_shape(dat);
    text.clear();
    text.extend_from_slice(b"dat: ")?;
    text.extend_from_slice(mesh.dat_name(dat).bytes())?;
    text.push(b' ')?;
    text.extend_from_slice(mesh.set_name(set).bytes())?;
    text.push(b' ')?;
    put_u64(text, u64::from(mesh.set_size(set)))?;
    text.push(b' ')?;
    put_u64(text, u64::from(dim))?;
    Ok(())
}

// Takes the lines of so many elements with so many values each, and appends these.
fn take_elements(
    lines: &mut Lines,
    size: u32,
    dim: u32,
    values: &mut Vec<i32>,
) -> Result<(), StateRefusal>
    ensures { (b : BoundValue) (k : ℕ) → PushJudges b k (map (λ e. ValuesLine dim) (numbers size)) lines.old lines.new
        values.old.items values.new.items result }
{
    for _element in 0..size {
        take_values(lines, dim as usize, values)?;
    }
    Ok(())
}

// Takes the lines of a dat, and gives its values.
fn take_dat(
    alloc: Global,
    text: &mut Vec<u8>,
    lines: &mut Lines,
    mesh: &Mesh,
    dat: u32,
) -> Result<Values, StateRefusal>
    requires { dat < dat_count mesh.now }
    ensures judged { (b : BoundValue) (k : ℕ) → JudgesAmong b k (awaited_dat mesh.now dat) lines.old lines.new (λ v. v) result }
    ensures count { IfOk result (λ v. length v ≡ length (dat_values mesh.now dat)) }
{
    mesh.is_in_range();
    let (set, dim) = mesh.dat_shape(dat);
    write_dat_line(text, mesh, dat)?;
    take_exactly(lines, text)?;
    let mut values = Vec::with_capacity(alloc, mesh.dat_values(dat).len())?;
    take_elements(lines, mesh.set_size(set), dim, &mut values)?;
    Ok(Values::new(values))
}

/// Takes the lines of all dats, and gives their values in order.
pub fn take_dats(alloc: Global, lines: &mut Lines, mesh: &Mesh) -> Result<Vec<Values>, StateRefusal>
    ensures judged { (b : BoundValue) (k : ℕ) → JudgesAmong b k (awaited_dats mesh.now) lines.old lines.new
        (λ v. flat_map (λ z. z) v.items) result }
    ensures shape { IfOk result (λ v. map length v.items ≡ map (λ (d : DatDecl). length d.values) mesh.now.dats) }
{
    let mut text = Vec::new(alloc);
    let mut told = Vec::new(alloc);
    for dat in 0..mesh.dat_count() {
        let values = take_dat(alloc, &mut text, lines, mesh, dat)?;
        told.push(values)?;
    }
    Ok(told)
}
