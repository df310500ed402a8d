// Where the cells of messages stand.

ghost use Rattle.std.specs.Prelude.{◌≡◌, ◌<◌, ◌≤◌, ◌+◌, ◌*◌, ◌++◌, ℕ};
ghost use Rattle.std.specs.Prelude.{All, map, length, slice_index, vec_capacity};
ghost use Rattle.lemmas.specs.Below.{row, rows};
ghost use Rattle.mesh_decl.specs.Mesh.{dat_count, set_count};
ghost use Rattle.rank_layout.specs.Exports.{exports_in};
ghost use Rattle.rank_layout.specs.Messages.{element_span, imports_in, HasList, dat_spans, spans_of, AreWithin, AreThere};
ghost use Rattle.rank_layout.specs.Messages as the;
ghost use Rattle.rank_layout.specs.Exports as sent;

use local_mesh::{LocalLists, RankMesh};
use loop_plan::Pair;
use mesh_decl::Mesh;
use rank_state::Span;

// Puts down where the values of a dat's elements with these local numbers stand; `dim` is the dat's.
fn push_elements(part: &RankMesh, dat: u32, dim: u32, locals: &[u32], spans: &mut Vec<Span>)
    requires dat { dat < length part.now.bases.items }
    requires within { All (λ k. slice_index part.now.bases.items dat + k * dim + dim ≤ part.now.cells) locals.now }
    requires room { length spans.old.items + length locals.now ≤ vec_capacity spans.old }
    ensures spans { spans.new.items
        ≡ spans.old.items ++ map (element_span (slice_index part.now.bases.items dat) dim) locals.now }
    ensures room { vec_capacity spans.new ≡ vec_capacity spans.old }
{
    for local in locals {
        spans.push_reserved(Span {
            at: part.place(dat, dim, *local),
            dim: dim as usize,
            writes: true,
        });
    }
}

// The same of a dat on a rank.
fn push_dat(mesh: &Mesh, part: &RankMesh, dat: u32, locals: &[u32], spans: &mut Vec<Span>)
    requires dat { dat < dat_count mesh.now }
    requires bases { length part.now.bases.items ≡ dat_count mesh.now }
    requires within { AreWithin mesh.now part.now (λ t. locals.now) dat }
    requires room { length spans.old.items + length locals.now ≤ vec_capacity spans.old }
    ensures spans { spans.new.items ≡ spans.old.items ++ dat_spans mesh.now part.now (λ t. locals.now) dat }
    ensures room { vec_capacity spans.new ≡ vec_capacity spans.old }
{
    let (_, dim) = mesh.dat_shape(dat);
    push_elements(part, dat, dim, locals, spans);
}

// The list at place `k`.
fn list_of(lists: &[Vec<u32>], k: u32) -> &[u32]
    requires { k < length lists.now }
    ensures { result.now ≡ row lists.now k }
{
    &lists[k as usize]
}

// The lists at place `a`.
fn lists_of(tables: &[Vec<Vec<u32>>], a: u32) -> &[Vec<u32>]
    requires { a < length tables.now }
    ensures { result.now ≡ rows tables.now a }
{
    &tables[a as usize]
}

// The exports of a set.
fn exports_of(lists: &[LocalLists], set: u32) -> &[Vec<Vec<u32>>]
    requires { set < length lists.now }
    ensures { result.now ≡ exports_in lists.now set }
{
    &lists[set as usize].exports
}

// The imports of a set.
fn imports_of(lists: &[LocalLists], set: u32) -> &[Vec<Vec<u32>>]
    requires { set < length lists.now }
    ensures { result.now ≡ imports_in lists.now set }
{
    &lists[set as usize].imports
}

/// Of a set, the owner's local numbers of what a rank imports from it.
pub fn exported_locals(lists: &[LocalLists], set: u32, owner: u32, rank: u32) -> &[u32]
    requires set { set < length lists.now }
    requires has { HasList (exports_in lists.now set) owner rank }
    ensures { result.now ≡ sent.exported_locals lists.now set owner rank }
{
    list_of(lists_of(exports_of(lists, set), owner), rank)
}

// Of a set, a rank's local numbers of what it imports from an owner.
fn imported_locals(lists: &[LocalLists], set: u32, rank: u32, owner: u32) -> &[u32]
    requires set { set < length lists.now }
    requires has { HasList (imports_in lists.now set) rank owner }
    ensures { result.now ≡ the.imported_locals lists.now set rank owner }
{
    list_of(lists_of(imports_of(lists, set), rank), owner)
}

/// Puts down where the cells of a message stand on its sender, whose local mesh is `part`: those of each of the dats.
pub fn push_exports(
    mesh: &Mesh,
    part: &RankMesh,
    lists: &[LocalLists],
    dats: &[u32],
    pair: Pair,
    spans: &mut Vec<Span>,
)
    requires lists { length lists.now ≡ set_count mesh.now }
    requires has { (t : ℕ) → t < set_count mesh.now → HasList (exports_in lists.now t) pair.from pair.to }
    requires there { AreThere mesh.now part.now (λ t. sent.exported_locals lists.now t pair.from pair.to) dats.now }
    requires room { length spans.old.items
        + length (spans_of mesh.now part.now (λ t. sent.exported_locals lists.now t pair.from pair.to) dats.now)
        ≤ vec_capacity spans.old }
    ensures spans { spans.new.items
        ≡ spans.old.items ++ spans_of mesh.now part.now (λ t. sent.exported_locals lists.now t pair.from pair.to) dats.now }
    ensures room { vec_capacity spans.new ≡ vec_capacity spans.old }
{
    for dat in dats {
        let (set, _) = mesh.dat_shape(*dat);
        push_dat(
            mesh,
            part,
            *dat,
            exported_locals(lists, set, pair.from, pair.to),
            spans,
        );
    }
}

/// Puts down where the cells of a message stand on its receiver, whose local mesh is `part`: those of each of the dats.
pub fn push_imports(
    mesh: &Mesh,
    part: &RankMesh,
    lists: &[LocalLists],
    dats: &[u32],
    pair: Pair,
    spans: &mut Vec<Span>,
)
    requires lists { length lists.now ≡ set_count mesh.now }
    requires has { (t : ℕ) → t < set_count mesh.now → HasList (imports_in lists.now t) pair.to pair.from }
    requires there { AreThere mesh.now part.now (λ t. the.imported_locals lists.now t pair.to pair.from) dats.now }
    requires room { length spans.old.items
        + length (spans_of mesh.now part.now (λ t. the.imported_locals lists.now t pair.to pair.from) dats.now)
        ≤ vec_capacity spans.old }
    ensures spans { spans.new.items
        ≡ spans.old.items ++ spans_of mesh.now part.now (λ t. the.imported_locals lists.now t pair.to pair.from) dats.now }
    ensures room { vec_capacity spans.new ≡ vec_capacity spans.old }
{
    for dat in dats {
        let (set, _) = mesh.dat_shape(*dat);
        push_dat(
            mesh,
            part,
            *dat,
            imported_locals(lists, set, pair.to, pair.from),
            spans,
        );
    }
}
