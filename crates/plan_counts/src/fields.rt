// The fields of a line, and lines of them.

ghost use Rattle.std.specs.Prelude.{◌≡◌, ◌++◌, ◌∷◌, [], map, codes, OnOk, if◌then◌else◌};
ghost use Rattle.std.specs.List.{flat_map};
ghost use Rattle.std.specs.Fmt.{decimal};
ghost use Rattle.op_num.specs.Lines.{line_of};
ghost use Rattle.plan_counts.specs.Table.{padded, row_text};

use op_num::{OutOfMemory, put_u64};
use std::alloc::Global;
use std::marker::Model;

/// The fields of a line. Contracts see them as a list of their bytes.
#[derive(Drop)]
pub struct Fields {
    fields: Vec<Vec<u8>>,
}

impl Model for Fields {
    ghost use Rattle.std.specs.Prelude.{List, ℕ, map};

    ghost Value = { List (List ℕ) };

    ghost view = { λ f. map (λ v. v.items) f.fields.items };
}

impl Fields {
    /// No field. Takes no memory.
    pub fn new(alloc: Global) -> Fields
        ensures { result ≡ [] }
    {
        Fields {
            fields: Vec::new(alloc),
        }
    }

    /// A further field with these bytes. An error is want of memory.
    pub fn push(&mut self, bytes: Vec<u8>) -> Result<(), OutOfMemory>
        ensures { OnOk result (self.new ≡ self.old ++ bytes.items ∷ []) }
    {
        self.fields.push(bytes)?;
        Ok(())
    }

    /// A copy of these bytes. An error is want of memory.
    pub fn push_text(&mut self, alloc: Global, text: &[u8]) -> Result<(), OutOfMemory>
        ensures { OnOk result (self.new ≡ self.old ++ text.now ∷ []) }
    {
        self.push(text.to_vec(alloc)?)
    }

    /// A number, in decimal digits. An error is want of memory.
    pub fn push_number(&mut self, alloc: Global, number: u64) -> Result<(), OutOfMemory>
        ensures { OnOk result (self.new ≡ self.old ++ decimal number ∷ []) }
    {
        let mut text = Vec::new(alloc);
        put_u64(&mut text, number)?;
        self.push(text)
    }

    /// Appends the line of these fields: with single spaces where `plain` is set, and else in columns. An error is want
    /// of memory.
    pub fn put_row(&self, out: &mut Vec<u8>, plain: bool) -> Result<(), OutOfMemory>
        ensures { OnOk result (out.new.items ≡ out.old.items ++ row_text plain self.now) }
    {
        if plain {
            put_plain(out, &self.fields)
        } else {
            put_wide(out, &self.fields)
        }
    }
}

// LF behind the last of a line, else a space.
fn put_separator(out: &mut Vec<u8>, is_last: bool) -> Result<(), OutOfMemory>
    ensures { OnOk result (out.new.items ≡ out.old.items ++ (if is_last then 10 else 32) ∷ []) }
{
    out.push(if is_last { b'\n' } else { b' ' })?;
    Ok(())
}

// Fields between single spaces, and LF.
fn put_plain(out: &mut Vec<u8>, fields: &[Vec<u8>]) -> Result<(), OutOfMemory>
    ensures { OnOk result (out.new.items ≡ out.old.items ++ line_of (map (λ v. v.items) fields.now)) }
{
    let mut rest = fields;
    while let [first, more @ ..] = rest {
        out.extend_from_slice(first)?;
        put_separator(out, more.is_empty())?;
        rest = more;
    }
    Ok(())
}

// A field at the right of its column.
fn put_padded(out: &mut Vec<u8>, field: &[u8]) -> Result<(), OutOfMemory>
    ensures { OnOk result (out.new.items ≡ out.old.items ++ padded field.now) }
{
    out.push(b' ')?;
    let mut width = field.len();
    while width < 10 {
        out.push(b' ')?;
        width += 1;
    }
    out.extend_from_slice(field)
}

// Fields in columns, and LF.
fn put_wide(out: &mut Vec<u8>, fields: &[Vec<u8>]) -> Result<(), OutOfMemory>
    ensures { OnOk result (out.new.items ≡ out.old.items ++ flat_map padded (map (λ v. v.items) fields.now) ++ codes "\n") }
{
    let mut rest = fields;
    while let [first, more @ ..] = rest {
        put_padded(out, first)?;
        rest = more;
    }
    out.extend_from_slice(b"\n")
}
