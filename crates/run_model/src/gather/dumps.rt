// What the ranks hold (the form of the text is this project's own).
ghost use Rattle.std.specs.Prelude.{◌≡◌, ◌<◌, ◌≤◌, ◌*◌, ◌++◌, map, length, drop, slice_index, codes, OnOk, OnErr};
ghost use Rattle.std.specs.List.{flat_map};
ghost use Rattle.std.specs.Fmt.{decimal, signed_decimal};
ghost use Rattle.mesh_decl.specs.Mesh.{dat_count, dat_set, dat_dim};
ghost use Rattle.local_mesh.specs.LocalMesh.{originals_in};
ghost use Rattle.run_model.specs.Grows.{Grows};
ghost use Rattle.run_model.specs.Dump.{copy_text, copies_text, sizes_text, counts_text, dat_text, dats_text};
ghost use Rattle.run_model.specs.Dump.{ranks_text, dump_text, IsHeld, AreHeld};

use local_mesh::{LocalSet, RankMesh};
use mesh_decl::Mesh;
use op_num::{Name, OutOfMemory, put_i32, put_u64};

/// Appends the dump of the ranks' memories: a line `dump`; then for each rank, and each dat in order, a line with the
/// rank, the dat's name and how many elements of its set the rank owns, imports to execute and imports to read; then
/// for each of these, in local order, a line with its number in the mesh and its values. `ranks` are the local meshes,
/// and `memories` has each rank's buffer, as long as its local mesh says.
///
/// Want of memory leaves `out` as it was.
pub fn dump(
    out: &mut Vec<u8>,
    mesh: &Mesh,
    ranks: &[RankMesh],
    memories: &[Vec<i32>],
) -> Result<(), OutOfMemory>
    requires { AreHeld mesh.now ranks.now (map (λ v. v.items) memories.now) }
    ensures ok { OnOk result (out.new.items ≡ out.old.items ++ dump_text mesh.now ranks.now (map (λ v. v.items) memories.now)) }
    ensures err { OnErr result (out.new.items ≡ out.old.items) }
{
    let before = out.len();
    let dumped = put_dump(out, mesh, ranks, memories);
    if dumped.is_err() {
        out.truncate(before);
    }
    dumped
}

// The lines of all ranks behind the first, or a front of them.
fn put_dump(
    out: &mut Vec<u8>,
    mesh: &Mesh,
    ranks: &[RankMesh],
    memories: &[Vec<i32>],
) -> Result<(), OutOfMemory>
    requires { AreHeld mesh.now ranks.now (map (λ v. v.items) memories.now) }
    ensures ok { OnOk result (out.new.items ≡ out.old.items ++ dump_text mesh.now ranks.now (map (λ v. v.items) memories.now)) }
    ensures grows { Grows out.old.items out.new.items }
{
    out.extend_from_slice(b"dump\n")?;
    put_ranks(out, mesh, ranks, memories)
}

// The lines of all ranks.
fn put_ranks(
    out: &mut Vec<u8>,
    mesh: &Mesh,
    ranks: &[RankMesh],
    memories: &[Vec<i32>],
) -> Result<(), OutOfMemory>
    requires { AreHeld mesh.now ranks.now (map (λ v. v.items) memories.now) }
    ensures ok { OnOk result (out.new.items ≡ out.old.items ++ ranks_text mesh.now 0 ranks.now (map (λ v. v.items) memories.now)) }
    ensures grows { Grows out.old.items out.new.items }
{
    let mut left = ranks;
    let mut buffers = memories;
    let mut rank = 0u64;
    while let [part, parts @ ..] = left {
        let [memory, others @ ..] = buffers else {
            unreachable!()
        };
        put_dats(out, mesh, rank, part, memory)?;
        left = parts;
        buffers = others;
        rank += 1;
    }
    Ok(())
}

// The lines of a rank.
fn put_dats(
    out: &mut Vec<u8>,
    mesh: &Mesh,
    rank: u64,
    part: &RankMesh,
    memory: &[i32],
) -> Result<(), OutOfMemory>
    requires { IsHeld mesh.now part.now memory.now }
    ensures ok { OnOk result (out.new.items ≡ out.old.items ++ dats_text mesh.now rank part.now memory.now (dat_count mesh.now)) }
    ensures grows { Grows out.old.items out.new.items }
{
    for dat in 0..mesh.dat_count() {
        put_dat(out, mesh, rank, part, memory, dat)?;
    }
    Ok(())
}

// The lines of a dat on a rank.
fn put_dat(
    out: &mut Vec<u8>,
    mesh: &Mesh,
    rank: u64,
    part: &RankMesh,
    memory: &[i32],
    dat: u32,
) -> Result<(), OutOfMemory>
    requires held { IsHeld mesh.now part.now memory.now }
    requires dat { dat < dat_count mesh.now }
    ensures ok { OnOk result (out.new.items ≡ out.old.items ++ dat_text mesh.now rank part.now memory.now dat) }
    ensures grows { Grows out.old.items out.new.items }
{
    mesh.is_in_range();
    let (set, dim) = mesh.dat_shape(dat);
    let elements = &part.sets[set as usize];
    put_counts(out, rank, mesh.dat_name(dat), elements)?;
    let values = values_of(mesh, part, memory, dat);
    put_copies(out, dim, elements.original.as_slice(), values)
}

// The values of a dat on a rank, and what stands behind them.
fn values_of<'a>(mesh: &Mesh, part: &RankMesh, memory: &'a [i32], dat: u32) -> &'a [i32]
    requires held { IsHeld mesh.now part.now memory.now }
    requires dat { dat < dat_count mesh.now }
    ensures values { result.now ≡ drop (slice_index part.now.bases.items dat) memory.now }
    ensures room { length (originals_in part.now.sets.items (dat_set mesh.now dat)) * dat_dim mesh.now dat ≤ length result.now }
{
    memory.split_at(part.bases[dat as usize]).1
}

// The line of a dat on a rank that has these elements of its set.
fn put_counts(
    out: &mut Vec<u8>,
    rank: u64,
    name: &Name,
    elements: &LocalSet,
) -> Result<(), OutOfMemory>
    ensures ok { OnOk result (out.new.items
        ≡ out.old.items ++ counts_text rank name.now elements.now.own elements.now.exec elements.now.nonexec) }
    ensures grows { Grows out.old.items out.new.items }
{
    put_name(out, rank, name)?;
    put_sizes(out, elements)
}

// Up to the dat's name.
fn put_name(out: &mut Vec<u8>, rank: u64, name: &Name) -> Result<(), OutOfMemory>
    ensures ok { OnOk result (out.new.items ≡ out.old.items ++ codes "rank " ++ decimal rank ++ codes " " ++ name.now) }
    ensures grows { Grows out.old.items out.new.items }
{
    out.extend_from_slice(b"rank ")?;
    put_u64(out, rank)?;
    out.extend_from_slice(b" ")?;
    out.extend_from_slice(name.bytes())
}

// From there on.
fn put_sizes(out: &mut Vec<u8>, elements: &LocalSet) -> Result<(), OutOfMemory>
    ensures ok { OnOk result (out.new.items
        ≡ out.old.items ++ sizes_text elements.now.own elements.now.exec elements.now.nonexec) }
    ensures grows { Grows out.old.items out.new.items }
{
    out.extend_from_slice(b" ")?;
    put_u64(out, u64::from(elements.own))?;
    out.extend_from_slice(b" ")?;
    put_u64(out, u64::from(elements.exec))?;
    out.extend_from_slice(b" ")?;
    put_u64(out, u64::from(elements.nonexec))?;
    out.extend_from_slice(b"\n")
}

// The lines of elements with these numbers, whose values stand one behind another.
fn put_copies(
    out: &mut Vec<u8>,
    dim: u32,
    elements: &[u32],
    values: &[i32],
) -> Result<(), OutOfMemory>
    requires { length elements.now * dim ≤ length values.now }
    ensures ok { OnOk result (out.new.items ≡ out.old.items ++ copies_text dim elements.now values.now) }
    ensures grows { Grows out.old.items out.new.items }
{
    let mut left = elements;
    let mut rest = values;
    while let [element, more @ ..] = left {
        let (copy, others) = rest.split_at(dim as usize);
        put_copy(out, *element, copy)?;
        left = more;
        rest = others;
    }
    Ok(())
}

// The line of an element.
fn put_copy(out: &mut Vec<u8>, element: u32, values: &[i32]) -> Result<(), OutOfMemory>
    ensures ok { OnOk result (out.new.items ≡ out.old.items ++ copy_text element values.now) }
    ensures grows { Grows out.old.items out.new.items }
{
    put_u64(out, u64::from(element))?;
    put_values(out, values)?;
    out.extend_from_slice(b"\n")
}

// Values, each with a space before it.
fn put_values(out: &mut Vec<u8>, values: &[i32]) -> Result<(), OutOfMemory>
    ensures ok { OnOk result (out.new.items ≡ out.old.items ++ flat_map (λ z. codes " " ++ signed_decimal z) values.now) }
    ensures grows { Grows out.old.items out.new.items }
{
    let mut rest = values;
    while let [first, more @ ..] = rest {
        out.extend_from_slice(b" ")?;
        put_i32(out, *first)?;
        rest = more;
    }
    Ok(())
}
