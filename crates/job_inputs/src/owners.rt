// New numbers and owners, as they are asked for.

ghost use Rattle.std.specs.Prelude.{◌≡◌, ◌≤◌, ◌↔◌, ℕ, List, All, length, Ok, Err, IfOk, IfErr, OnOk};
ghost use Rattle.op_outside.specs.Outside.{Rose};
ghost use Rattle.job_inputs.specs.Readings.{AreNext, HaveCome, Finds};
ghost use Rattle.mesh_decl.specs.Owners.{AreOwners, ArePerms};
ghost use Rattle.partition.specs.Parts.{Text, parts_of, HasLines, UnownedWhere};
ghost use Rattle.partition.specs.declared.distribute.types.OwnersRefusal.TheVariants as unowned;
ghost use Rattle.bound_program.specs.Values.{bound_of};
ghost use Rattle.answers.specs.Said.{SaysPartition, SaysOwners};
ghost use Rattle.command_words.specs.declared.answer_lines.limits.TheConstants.{PARTITION_BYTES};
ghost use Rattle.command_words.specs.Words.{names_by};
ghost use Rattle.command_words.specs.Laws.{AreFew};
ghost use Rattle.answers.specs.Judgements.{NumbersOf, PartsOf, OwnersOf};
ghost use Rattle.command_words.specs.Values.{parting_in, options_in};
ghost use Rattle.command_words.specs.declared.answer_lines.refusals.Failure.TheVariants.{OutOfMemory};
ghost use Rattle.command_words.specs.declared.answer_lines.refusals.Halt.TheVariants.{Failed};
ghost use Rattle.command_words.specs.Halts.{StopsWhere};
ghost use Rattle.job_inputs.specs.Inputs.{parts_by};
ghost use Rattle.job_inputs.specs.Chains.{HaltsOver};

use crate::files::file_of;
use crate::kept_files::Kept;
use bound_program::Bound;
use command_words::answer_lines::{Failure, Halt, Limit, Refusal};
use command_words::{Options, Parting};
use mesh_decl::{Owners, Perms};
use op_outside::Shelf;
use partition::distribute::{
    NumbersRefusal, OwnersRefusal, PartRefusal, Parts, numbers_by, owners_by,
};
use std::alloc::Global;

/// New numbers of the elements of each set, as the options ask for them.
///
/// Refused is the name of a map that the mesh hasn't. Want of memory is the one failure.
pub fn numbers_of<'a>(
    alloc: Global,
    options: &Options<'a>,
    bound: &Bound,
) -> Result<Perms, Halt<'a>>
    ensures ok { IfOk result (λ p. NumbersOf (options_in options.now) (bound_of bound.now) (Ok p)) }
    ensures fit { IfOk result (ArePerms (bound_of bound.now).mesh) }
    ensures err { IfErr result (StopsWhere (λ r. NumbersOf (options_in options.now) (bound_of bound.now) (Err r))) }
{
    match numbers_by(alloc, &bound.mesh, options.renumber) {
        Ok(perms) => Ok(perms),
        Err(NumbersRefusal::UnknownMap(name)) => Err(Halt::Refused(Refusal::BadPart(name))),
        Err(NumbersRefusal::OutOfMemory) => Err(Halt::Failed(Failure::OutOfMemory)),
    }
}

// A text that spells no owners of the mesh.
fn unspelled<'a>(refusal: PartRefusal) -> Halt<'a>
    ensures { StopsWhere (SaysPartition refusal) result }
{
    let (number, line) = match refusal {
        PartRefusal::Header { line } => (1, line),
        PartRefusal::Syntax { line } => (2, line),
        PartRefusal::UnknownSet { line } => (3, line),
        PartRefusal::MissingSet { line } => (4, line),
        PartRefusal::WrongCount { line } => (5, line),
        PartRefusal::RankRange { line } => (6, line),
        PartRefusal::OutOfMemory => return Halt::Failed(Failure::OutOfMemory),
    };
    Halt::Refused(Refusal::BadPartition { number, line })
}

// Owners that aren't there.
fn unowned<'a>(refusal: OwnersRefusal<'a>) -> Halt<'a>
    ensures says { UnownedWhere (λ r. StopsWhere (SaysOwners r) result) refusal.entry }
    ensures memory { refusal.entry ≡ unowned.OutOfMemory → result ≡ Failed OutOfMemory }
{
    match refusal {
        OwnersRefusal::UnknownDat(name) => Halt::Refused(Refusal::BadPart(name)),
        OwnersRefusal::UnknownMap(name) => Halt::Refused(Refusal::BadPart(name)),
        OwnersRefusal::Text(refusal) => unspelled(refusal),
        OwnersRefusal::OutOfMemory => Halt::Failed(Failure::OutOfMemory),
    }
}

// Owners by a rule.
fn owners_by_rule<'a>(
    alloc: Global,
    ranks: u32,
    bound: &Bound,
    rule: &Parts<'a>,
) -> Result<Owners, Halt<'a>>
    requires few { AreFew ranks }
    requires lines { HasLines (parts_of rule.now) }
    ensures ok { IfOk result (λ u. OwnersOf ranks (bound_of bound.now) (parts_of rule.now) (Ok u)) }
    ensures fit { IfOk result (AreOwners (bound_of bound.now).mesh) }
    ensures err { IfErr result (StopsWhere (λ r. OwnersOf ranks (bound_of bound.now) (parts_of rule.now) (Err r))) }
{
    match owners_by(alloc, &bound.mesh, ranks, rule) {
        Ok(owners) => Ok(owners),
        Err(refusal) => Err(unowned(refusal)),
    }
}

// Owners as the text of a partition has them.
fn owners_by_text<'a>(
    alloc: Global,
    ranks: u32,
    bound: &Bound,
    bytes: &[u8],
) -> Result<Owners, Halt<'a>>
    requires few { AreFew ranks }
    requires short { length bytes.now ≤ PARTITION_BYTES }
    ensures ok { IfOk result (λ u. OwnersOf ranks (bound_of bound.now) (Text bytes.now) (Ok u)) }
    ensures fit { IfOk result (AreOwners (bound_of bound.now).mesh) }
    ensures err { IfErr result (StopsWhere (λ r. OwnersOf ranks (bound_of bound.now) (Text bytes.now) (Err r))) }
{
    match owners_by(alloc, &bound.mesh, ranks, &Parts::Text(bytes)) {
        Ok(owners) => Ok(owners),
        Err(OwnersRefusal::Text(refusal)) => Err(unspelled(refusal)),
        Err(OwnersRefusal::OutOfMemory) => Err(Halt::Failed(Failure::OutOfMemory)),
        Err(OwnersRefusal::UnknownDat(_)) => unreachable!(),
        Err(OwnersRefusal::UnknownMap(_)) => unreachable!(),
    }
}

/// Owners of the elements of each set among so many ranks, 1 to 64, as they are asked for. Where a file tells them,
/// `text` is what it holds, and else it isn't looked at; it has at most `PARTITION_BYTES` bytes.
///
/// Refused are the name of a dat or a map that the mesh hasn't, and a text that spells no owners of the mesh, at its
/// first fault with its line. Want of memory is the one failure.
pub fn owners_of<'a>(
    alloc: Global,
    ranks: u32,
    parting: Parting<'a>,
    bound: &Bound,
    text: &[u8],
) -> Result<Owners, Halt<'a>>
    requires few { AreFew ranks }
    requires short { length text.now ≤ PARTITION_BYTES }
    ensures ok { IfOk result (λ u. OwnersOf ranks (bound_of bound.now) (parts_by (parting_in parting.entry) text.now) (Ok u)) }
    ensures fit { IfOk result (AreOwners (bound_of bound.now).mesh) }
    ensures err { IfErr result (StopsWhere (λ r. OwnersOf ranks (bound_of bound.now)
        (parts_by (parting_in parting.entry) text.now) (Err r))) }
{
    match parting {
        Parting::ByRule(rule) => owners_by_rule(alloc, ranks, bound, &rule.parts()),
        Parting::ByFile(_) => owners_by_text(alloc, ranks, bound, text),
    }
}

/// What the file holds that tells the owners, which is the next in `kept` then; nothing where none does.
///
/// Refused are a file that isn't there, and one with more than `PARTITION_BYTES` bytes. A file that could not be read
/// is a failure, where the shelf's count of faults rose, and so is want of memory.
pub fn partition_of<'a, F: Shelf>(
    alloc: Global,
    shelf: &mut F,
    kept: &mut Kept<'a>,
    parting: Parting<'a>,
) -> Result<Vec<u8>, Halt<'a>>
    requires lent { All (λ name. F.lends shelf.old name) (names_by (parting_in parting)) }
    requires next { AreNext (names_by (parting_in parting)) kept.old }
    ensures told { F.told shelf.new ≡ F.told shelf.old }
    ensures lends { (n : List ℕ) → F.lends shelf.old n ↔ F.lends shelf.new n }
    ensures calm { OnOk result (F.faults shelf.new ≡ F.faults shelf.old) }
    ensures come { OnOk result (HaveCome (names_by (parting_in parting.entry)) kept.old kept.new) }
    ensures read { IfOk result (λ v. Finds (F.told shelf.old) kept.old kept.new
        (λ files. PartsOf (parting_in parting.entry) files (Ok (parts_by (parting_in parting.entry) v.items)))) }
    ensures fits { IfOk result (λ v. length v.items ≤ PARTITION_BYTES) }
    ensures err { IfErr result (HaltsOver (F.told shelf.old) kept.old (λ files r. PartsOf (parting_in parting.entry) files (Err r))
        (Rose (F.faults shelf.old) (F.faults shelf.new))) }
{
    match parting {
        Parting::ByRule(_) => Ok(Vec::new(alloc)),
        Parting::ByFile(name) => file_of(alloc, shelf, kept, name, Limit::PartitionBytes),
    }
}
