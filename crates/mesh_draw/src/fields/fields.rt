// Fields.
ghost use Rattle.std.specs.Prelude.{◌≡◌, ◌+◌, ◌<◌, ◌^◌, ◌++◌, length, OnOk, IfOk, IfErr};
ghost use Rattle.mesh_decl.specs.Mesh.{dat_count};
ghost use Rattle.bound_program.specs.Values.{bound_of};
ghost use Rattle.bound_program.specs.Fits.{Fits};
ghost use Rattle.mesh_draw.specs.Fields.{some_field, IsFieldOrNone, HasNoField, AreFields, HaveNoFields};

use crate::fields::numbers::other_line;
use crate::fields::refusals::FieldRefusal;
use crate::output_pieces::{PieceRefusal, last_rows};
use crate::vtk_texts::Field;
use bound_program::Bound;
use op_num::{OutOfMemory, Text};
use std::alloc::Global;

// The field of a dat, or none where the program doesn't print it.
fn field_of(
    alloc: Global,
    bound: &Bound,
    output: &[u8],
    dat: u32,
) -> Result<Option<Field>, FieldRefusal>
    requires fits { Fits (bound_of bound.now) }
    requires output { length output.now + 1 < 2 ^ 32 }
    requires dat { dat < dat_count bound.now.mesh }
    ensures ok { IfOk result (IsFieldOrNone (bound_of bound.now) output.now dat) }
    ensures err { IfErr result (HasNoField (bound_of bound.now) output.now dat) }
{
    let found = match last_rows(alloc, bound, output, dat) {
        Ok(found) => found,
        Err(PieceRefusal::NoPrint) => return Ok(None),
        Err(PieceRefusal::NoHeader { line }) => return Err(FieldRefusal::NoHeader { line }),
        Err(PieceRefusal::FewRows { line }) => return Err(FieldRefusal::FewRows { line }),
        Err(PieceRefusal::OutOfMemory) => return Err(FieldRefusal::OutOfMemory),
    };
    bound.mesh.is_in_range();
    let (_, dim) = bound.mesh.dat_shape(dat);
    if let Some(before) = other_line(found.rows, dim) {
        let line = found.before + before as u64 + 1;
        return Err(FieldRefusal::NotNumbers { line });
    }
    Ok(Some(Field {
        name: Text::new(Vec::from_slice(alloc, bound.mesh.dat_name(dat).bytes())?),
        dim,
        rows: Text::new(Vec::from_slice(alloc, found.rows)?),
    }))
}

// Appends a field where there is one.
fn push_some(fields: &mut Vec<Field>, field: Option<Field>) -> Result<(), OutOfMemory>
    ensures { OnOk result (fields.new.items ≡ fields.old.items ++ some_field field) }
{
    if let Some(field) = field {
        fields.push(field)?;
    }
    Ok(())
}

/// The fields of the dats on a set that a program prints, in order of declaration: of each the lines of its last print,
/// out of the output of a run. An output has fewer than 2^32 - 1 bytes. It takes time linear in the output and the
/// trace for each such dat.
///
/// # Errors
/// The first cause of [`FieldRefusal`] by the dats in order; `OutOfMemory` where memory runs out.
pub fn fields_of(
    alloc: Global,
    bound: &Bound,
    output: &[u8],
    set: u32,
) -> Result<Vec<Field>, FieldRefusal>
    requires fits { Fits (bound_of bound.now) }
    requires output { length output.now + 1 < 2 ^ 32 }
    ensures ok { IfOk result (λ v. AreFields (bound_of bound.now) output.now set (dat_count bound.now.mesh) v.items) }
    ensures err { IfErr result (HaveNoFields (bound_of bound.now) output.now set) }
{
    bound.mesh.is_in_range();
    let mut fields = Vec::new(alloc);
    for dat in 0..bound.mesh.dat_count() {
        if bound.mesh.dat_shape(dat).0 == set {
            push_some(&mut fields, field_of(alloc, bound, output, dat)?)?;
        }
    }
    Ok(fields)
}
