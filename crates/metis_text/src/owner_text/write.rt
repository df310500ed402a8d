// Writing owners.

ghost use Rattle.std.specs.Prelude.{◌≡◌, ◌<◌, ◌++◌, [], ◌∷◌, ℕ, ◌^◌, length, map, OnOk, IfOk, IfErr, if◌then◌else◌};
ghost use Rattle.std.specs.Fmt.{decimal};
ghost use Rattle.op_num.specs.Lines.{line_of, text_of_lines};
ghost use Rattle.mesh_decl.specs.declared.owners.Owners.{Owners as Owned};
ghost use Rattle.mesh_decl.specs.Mesh.{MeshValue, set_count, set_size};
ghost use Rattle.mesh_decl.specs.Owners.{AreOwners};
ghost use Rattle.partition.specs.Spelling.{Spells};
ghost use Rattle.metis_text.specs.Written.{set_lines, partition_text, HaveNames};
ghost use Rattle.metis_text.specs.Answered.{IsUnnamed};

use crate::owner_text::names::first_unnamed;
use mesh_decl::{Mesh, Owners};
use op_num::texts::lines_are_cut;
use op_num::{OutOfMemory, number_is_read, put_u64};
use std::alloc::{AllocError, Global};
use thiserror::Error;

/// Why owners are not written.
#[derive(Clone, Copy, Debug, PartialEq, Eq, Error)]
pub enum WriteRefusal {
    /// No text can name this set: it has no name, a blank stands in its name, or a later set has it. The first such set
    /// is told.
    #[error("no text can name set {set}")]
    Unnamed { set: u32 },
    /// Want of memory.
    #[error("out of memory")]
    OutOfMemory,
}

impl From<AllocError> for WriteRefusal {
    ghost use Rattle.std.specs.Prelude.{◌≡◌};
    ghost use Rattle.metis_text.specs.declared.owner_text.write.WriteRefusal.TheVariants.{OutOfMemory};

    ghost from_gives = { λ _ e. e ≡ OutOfMemory };

    fn from(_: AllocError) -> WriteRefusal {
        WriteRefusal::OutOfMemory
    }
}

/// A law: where a text can name each set of a mesh, the text of owners spells them.
pub fn written_is_read()
    ensures { (g : MeshValue) (o : Owned) → HaveNames g → AreOwners g o → ((s : ℕ) → set_size g s < 2 ^ 32)
        → Spells g o.ranks (partition_text g o.sets.items) o.sets.items }
{
    lines_are_cut();
    number_is_read();
}

// LF behind the last of a line, else a space.
fn put_separator(out: &mut Vec<u8>, is_last: bool) -> Result<(), OutOfMemory>
    ensures { OnOk result (out.new.items ≡ out.old.items ++ (if is_last then 10 else 32) ∷ []) }
{
    out.push(if is_last { b'\n' } else { b' ' })?;
    Ok(())
}

// A line of numbers; nothing where there are none.
fn put_ranks(out: &mut Vec<u8>, ranks: &[u32]) -> Result<(), OutOfMemory>
    ensures { OnOk result (out.new.items ≡ out.old.items ++ line_of (map decimal ranks.now)) }
{
    let mut rest = ranks;
    while let [first, more @ ..] = rest {
        put_u64(out, *first as u64)?;
        put_separator(out, more.is_empty())?;
        rest = more;
    }
    Ok(())
}

// The lines of a set.
fn put_set(out: &mut Vec<u8>, mesh: &Mesh, set: u32, ranks: &[u32]) -> Result<(), OutOfMemory>
    requires { set < set_count mesh.now }
    ensures { OnOk result (out.new.items ≡ out.old.items ++ text_of_lines (set_lines mesh.now set ranks.now)) }
{
    out.extend_from_slice(b"set ")?;
    out.extend_from_slice(mesh.set_name(set).bytes())?;
    out.extend_from_slice(b" ")?;
    put_u64(out, mesh.set_size(set) as u64)?;
    out.extend_from_slice(b"\n")?;
    put_ranks(out, ranks)
}

// The whole text.
fn text_of(alloc: Global, mesh: &Mesh, owners: &Owners) -> Result<Vec<u8>, OutOfMemory>
    requires { length owners.now.sets.items ≡ set_count mesh.now }
    ensures { IfOk result (λ v. v.items ≡ partition_text mesh.now owners.now.sets.items) }
{
    let mut out = Vec::new(alloc);
    out.extend_from_slice(b"op2part 1\n")?;
    for set in 0..mesh.set_count() {
        put_set(&mut out, mesh, set, owners.of_set(set))?;
    }
    out.extend_from_slice(b"done\n")?;
    Ok(out)
}

/// The text of owners of a mesh: where `read_partition` reads it for this mesh and as many ranks, it gives these owners
/// back. It takes linear time, and as many comparisons of names as there are pairs of sets.
///
/// Refused is a mesh with a set that no text can name.
pub fn write_partition(alloc: Global, mesh: &Mesh, owners: &Owners) -> Result<Vec<u8>, WriteRefusal>
    requires { AreOwners mesh.now owners.now }
    ensures text { IfOk result (λ v. v.items ≡ partition_text mesh.now owners.now.sets.items) }
    ensures spells { IfOk result (λ v. Spells mesh.now owners.now.ranks v.items owners.now.sets.items) }
    ensures refused { IfErr result (IsUnnamed mesh.now) }
{
    written_is_read();
    mesh.is_in_range();
    if let Some(set) = first_unnamed(mesh) {
        return Err(WriteRefusal::Unnamed { set });
    }
    Ok(text_of(alloc, mesh, owners)?)
}
