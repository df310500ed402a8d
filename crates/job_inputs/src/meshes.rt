// The mesh: the entries of its text, and the program bound to them.

ghost use Rattle.std.specs.Prelude.{◌≡◌, ◌≤◌, ℕ, List, [], length, slice_index_or, option_map, Ok, Err, IfOk, IfErr};
ghost use Rattle.c_tree.specs.View.{program_of, host_of, hosts_of};
ghost use Rattle.mesh_decl.specs.Spelling.{Spells};
ghost use Rattle.mesh_decl.specs.declared.text.entry.TheConstants.{MESH_BYTES};
ghost use Rattle.bound_program.specs.Values as values;
ghost use Rattle.bound_program.specs.Fits.{Fits};
ghost use Rattle.run_model.specs.Ranges.{StartsInRange};
ghost use Rattle.command_words.specs.Refusal as answer;
ghost use Rattle.answers.specs.Judgements.{EntriesAre, BoundIs};
ghost use Rattle.answers.specs.Said as said;
ghost use Rattle.answers.specs.Said.{SaysMesh, SaysBinding, maps_in, map_name};
ghost use Rattle.command_words.specs.Halts.{limit_of as limit_in, StopsWhere};
ghost use Rattle.job_inputs.specs.Inputs.{IsJudged, HasNarrowMaps};
ghost use Rattle.job_inputs.specs.Maps.{map_by};

use answers::laws::bound_programs_start_in_range;
use bound_program::Bound;
use bound_program::refusals::{BindRefusal, Counted};
use c_tree::{Host, OpCall, Pos, Program};
use command_words::answer_lines::{Failure, Halt, Limit, Refusal, most};
use kernel_model::types::Resolved;
use loop_bind::{bind, bound_maps_are_narrow, resolved_sources_are, spelled_entries_fit};
use mesh_decl::{Entries, MeshRefusal, read_mesh};
use op_num::Name;
use std::alloc::{AllocError, Global};

/// The entries that the text of a mesh spells; it has at most `MESH_BYTES` bytes.
///
/// A text that spells none is refused at its first fault, with its line; where its values become more than a mesh may
/// have, with their number so far. Want of memory is the one failure.
pub fn entries_of<'a>(alloc: Global, text: &[u8]) -> Result<Entries, Halt<'a>>
    requires { length text.now ≤ MESH_BYTES }
    ensures ok { IfOk result (λ es. EntriesAre text.now (Ok es.entries)) }
    ensures err { IfErr result (StopsWhere (λ r. EntriesAre text.now (Err r))) }
{
    match read_mesh(alloc, text) {
        Ok(entries) => Ok(entries),
        Err(refusal) => Err(misspelled(refusal)),
    }
}

// A text that spells no entries.
fn misspelled<'a>(refusal: MeshRefusal) -> Halt<'a>
    ensures { StopsWhere (SaysMesh refusal) result }
{
    let (number, line) = match refusal {
        MeshRefusal::Header { line } => (1, line),
        MeshRefusal::Syntax { line } => (2, line),
        MeshRefusal::DuplicateEntry { line } => (3, line),
        MeshRefusal::WrongCount { line } => (4, line),
        MeshRefusal::NumberRange { line } => (5, line),
        MeshRefusal::Limit { size } => return beyond(Limit::MeshValues, size),
        MeshRefusal::OutOfMemory => return Halt::Failed(Failure::OutOfMemory),
    };
    Halt::Refused(Refusal::BadMesh { number, line })
}

// A size beyond its limit.
fn beyond<'a>(limit: Limit, size: u64) -> Halt<'a>
    ensures { StopsWhere (λ r. r ≡ answer.BeyondLimit (limit_in limit) size) result }
{
    Halt::Refused(Refusal::BeyondLimit { limit, size })
}

/// The program of the source, bound to the entries of the mesh.
pub fn bound_of<'a>(
    alloc: Global,
    program: &Program,
    resolved: Resolved,
    entries: &Entries,
) -> Result<Bound, Halt<'a>>
    requires judged { IsJudged (program_of program.now) resolved }
    requires entries { (text : List ℕ) × Spells text entries.now.entries }
    ensures ok { IfOk result (λ b. BoundIs (program_of program.now) resolved entries.now.entries (Ok (values.bound_of b))) }
    ensures fits { IfOk result (λ b. Fits (values.bound_of b)) }
    ensures narrow { IfOk result (λ b. HasNarrowMaps (values.bound_of b)) }
    ensures start { IfOk result (λ b. StartsInRange (values.bound_of b)) }
    ensures err { IfErr result (StopsWhere (λ r. BoundIs (program_of program.now) resolved entries.now.entries (Err r))) }
{
    resolved_sources_are();
    spelled_entries_fit();
    bound_maps_are_narrow();
    bound_programs_start_in_range();
    match bind(alloc, program, resolved, entries) {
        Ok(bound) => Ok(bound),
        Err(refusal) => Err(unbound(alloc, program, refusal)),
    }
}

// A source that can't be bound.
fn unbound<'a>(alloc: Global, program: &Program, refusal: BindRefusal) -> Halt<'a>
    ensures { StopsWhere (SaysBinding (program_of program.now) refusal) result }
{
    let (number, at) = match refusal {
        BindRefusal::UnknownSet { at } => (1, at),
        BindRefusal::UnknownMap { at } => (2, at),
        BindRefusal::UnknownDat { at } => (3, at),
        BindRefusal::UnknownKernel { at } => (4, at),
        BindRefusal::ArgCount { at } => (5, at),
        BindRefusal::DimMismatch { at } => (6, at),
        BindRefusal::TypeMismatch { at } => (7, at),
        BindRefusal::SetMismatch { at } => (8, at),
        BindRefusal::IndexRange { at } => (9, at),
        BindRefusal::MapTarget {
            at,
            map,
            element,
            place,
        } => return misled(alloc, program, at, map, element, place),
        BindRefusal::GlobalTwice { at } => (11, at),
        BindRefusal::ReservedAccess { at } => (12, at),
        BindRefusal::ControlNotStatic { at } => (13, at),
        BindRefusal::TraceTooLong => return beyond(Limit::Trace, most(Limit::Trace) + 1),
        BindRefusal::Limit { counted, size } => return beyond(limit_of(counted), size),
        BindRefusal::DeclarationPlace { at } => (16, at),
        BindRefusal::UnknownEntry { at } => (17, at),
        BindRefusal::OutOfMemory => return Halt::Failed(Failure::OutOfMemory),
    };
    Halt::Refused(Refusal::BadBinding { number, at })
}

// The limit of a size that is counted.
fn limit_of(counted: Counted) -> Limit
    ensures { limit_in result ≡ said.limit_of counted }
{
    match counted {
        Counted::Sets => Limit::Sets,
        Counted::Maps => Limit::Maps,
        Counted::Dats => Limit::Dats,
        Counted::SetSize => Limit::SetSize,
        Counted::Dim => Limit::Dim,
        Counted::MeshCells => Limit::MeshCells,
        Counted::Arguments => Limit::Arguments,
        Counted::PrintWeight => Limit::PrintWeight,
    }
}

// A map with an entry that is no element.
fn misled<'a>(
    alloc: Global,
    program: &Program,
    at: Pos,
    map: u32,
    element: u32,
    place: u32,
) -> Halt<'a>
    ensures { StopsWhere (λ r. r ≡ answer.BadTarget at (map_name (program_of program.now) map) element place) result }
{
    match copied_name(alloc, map_name(&program.main.body, map)) {
        Ok(map) => Halt::Refused(Refusal::BadTarget {
            at,
            map,
            element,
            place,
        }),
        Err(_) => Halt::Failed(Failure::OutOfMemory),
    }
}

// The same name, in memory of its own.
fn copied_name(alloc: Global, bytes: &[u8]) -> Result<Name, AllocError>
    ensures { IfOk result (λ name. name ≡ bytes.now) }
{
    Ok(Name::new(bytes.to_vec(alloc)?))
}

// The name of the map with this number, of those that `main` declares in the order of the text; none where there is
// none.
fn map_name(body: &[Host], map: u32) -> &[u8]
    ensures { result.now ≡ slice_index_or (maps_in (hosts_of body.now)) map [] }
{
    let mut left = map;
    for host in body {
        if let Some(name) = map_by(host) {
            if left == 0 {
                return name;
            }
            left -= 1;
        }
    }
    b""
}

// The name of the map that a statement declares.
fn map_by(host: &Host) -> Option<&[u8]>
    ensures { option_map (λ name. name.now) result ≡ map_by (host_of host.now) }
{
    match host {
        Host::Call(OpCall::DeclMap { name, .. }) => Some(name.name.bytes()),
        _ => None,
    }
}
