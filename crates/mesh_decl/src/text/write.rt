// Canonical texts.
ghost use Rattle.std.specs.Prelude.{◌≡◌, ◌<◌, ◌≤◌, ◌++◌, [], ◌∷◌, ℕ, ℤ, List, length, drop, OnOk, IfOk, if◌then◌else◌};
ghost use Rattle.std.specs.List.{prefix_len};
ghost use Rattle.std.specs.Ordering.{int_eq};
ghost use Rattle.op_num.specs.Lines.{line_of};
ghost use Rattle.mesh_decl.specs.declared.text.entry.Form.{Form as Version};
ghost use Rattle.mesh_decl.specs.Spelling.{Named, Spells, header};
ghost use Rattle.mesh_decl.specs.Canonical.{canonical, entry_text, groups, piece_text, pieces_of, FitI32, HasI32, CanBeSpelled};
ghost use Rattle.mesh_decl.specs.Canonical.{HaveSpelling};

use crate::text::entry::{Entries, Entry, Form};
use op_num::texts::lines_are_cut;
use op_num::{Name, OutOfMemory, number_is_read, printed_is_read, put_i32, put_u64};
use std::alloc::Global;

/// The canonical text of the entries in this version: the header, then for each entry in order its line, and behind the
/// line of an array that has values one line with these; then `done`. In version 2 each longest stretch of two or more
/// equal values is one run. Where each name is a C name and no array has more than 2147483647 values, `read_mesh` reads
/// the text again.
pub fn write_mesh(alloc: Global, entries: &Entries, form: Form) -> Result<Vec<u8>, OutOfMemory>
    ensures canonical { IfOk result (λ v. v.items ≡ canonical form entries.now.entries) }
    ensures spells { IfOk result (λ v. CanBeSpelled entries.now.entries → Spells v.items entries.now.entries) }
{
    written_is_spelled();
    let mut out = Vec::new(alloc);
    put_header(&mut out, form)?;
    for (name, entry) in entries.iter() {
        put_entry(&mut out, name, entry, form)?;
    }
    out.extend_from_slice(b"done\n")?;
    Ok(out)
}

fn put_header(out: &mut Vec<u8>, form: Form) -> Result<(), OutOfMemory>
    ensures { OnOk result (out.new.items ≡ out.old.items ++ line_of (header form)) }
{
    match form {
        Form::One => out.extend_from_slice(b"op2mesh 1\n"),
        Form::Two => out.extend_from_slice(b"op2mesh 2\n"),
    }
}

fn put_entry(out: &mut Vec<u8>, name: &Name, entry: &Entry, form: Form) -> Result<(), OutOfMemory>
    ensures numbers { OnOk result (HasI32 entry.now) }
    ensures text { OnOk result (out.new.items ≡ out.old.items ++ entry_text form (name.now, entry.now)) }
{
    match entry {
        Entry::One(value) => {
            out.extend_from_slice(b"int ")?;
            out.extend_from_slice(name.bytes())?;
            out.extend_from_slice(b" ")?;
            put_i32(out, *value)?;
        }
        Entry::Many(values) => {
            out.extend_from_slice(b"ints ")?;
            out.extend_from_slice(name.bytes())?;
            out.extend_from_slice(b" ")?;
            put_u64(out, values.as_slice().len() as u64)?;
            out.extend_from_slice(b"\n")?;
            return put_values(out, values.as_slice(), form);
        }
    }
    out.extend_from_slice(b"\n")
}

// The line of an array's values, where it has some.
fn put_values(out: &mut Vec<u8>, values: &[i32], form: Form) -> Result<(), OutOfMemory>
    ensures numbers { OnOk result (FitI32 values.now) }
    ensures text { OnOk result (out.new.items ≡ out.old.items ++ line_of (pieces_of form values.now)) }
{
    let mut rest = values;
    while let [first, ..] = rest {
        let times = group_len(rest, form);
        put_piece(out, times, *first)?;
        rest = rest.split_at(times).1;
        put_separator(out, rest.is_empty())?;
    }
    Ok(())
}

fn put_separator(out: &mut Vec<u8>, is_last: bool) -> Result<(), OutOfMemory>
    ensures { OnOk result (out.new.items ≡ out.old.items ++ (if is_last then 10 else 32) ∷ []) }
{
    out.extend_from_slice(if is_last { b"\n" } else { b" " })
}

fn put_piece(out: &mut Vec<u8>, times: usize, value: i32) -> Result<(), OutOfMemory>
    ensures { OnOk result (out.new.items ≡ out.old.items ++ piece_text (times, value)) }
{
    if times == 1 {
        return put_i32(out, value);
    }
    put_u64(out, times as u64)?;
    out.extend_from_slice(b"*")?;
    put_i32(out, value)
}

// How many values at the front are written as one token.
fn group_len(values: &[i32], form: Form) -> usize
    requires { 0 < length values.now }
    ensures group { (z : ℤ) (zs : List ℤ) → values.now ≡ z ∷ zs
        → groups form values.now ≡ (result, z) ∷ groups form (drop result values.now) }
    ensures some { 0 < result }
    ensures within { result ≤ length values.now }
{
    match form {
        Form::One => 1,
        Form::Two => stretch_len(values, values[0]),
    }
}

// How many values at the front are equal to one.
fn stretch_len(values: &[i32], value: i32) -> usize
    ensures size { result ≡ prefix_len (λ y. int_eq y value) values.now }
    ensures within { result ≤ length values.now }
{
    values.iter().take_while(|v| **v == value).count()
}

/// A law: the canonical text of entries that have a spelling spells them.
pub fn written_is_spelled()
    ensures { (f : Version) (es : List Named) → HaveSpelling [] es → Spells (canonical f es) es }
{
    lines_are_cut();
    number_is_read();
    printed_is_read();
}

/// A law: entries that some text spells have names and counts that can be spelled again, so `write_mesh` spells
/// whatever `read_mesh` read.
pub fn read_can_be_written()
    ensures { (bytes : List ℕ) (es : List Named) → Spells bytes es → CanBeSpelled es }
{}
