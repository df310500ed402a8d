// Reading a partition text.
ghost use Rattle.std.specs.Prelude.{◌≡◌, ◌+◌, ◌<◌, ◌≤◌, ◌^◌, ◌⊎◌, length, List, ℕ, [], ◌∷◌, ◌++◌, slice_set, OnOk, OnErr, IfOk, IfErr};
ghost use Rattle.std.specs.Prelude.{IfSome, Ok, Err, Some, None};
ghost use Rattle.op_num.specs.Spelling.{number_of};
ghost use Rattle.op_num.specs.Cut.{uncut, first_of};
ghost use Rattle.op_num.specs.Automaton.{Answers, Told, IsNext, IsGiven, IsRefused};
ghost use Rattle.mesh_decl.specs.Mesh.{MeshValue, set_count, set_size};
ghost use Rattle.mesh_decl.specs.Owners.{AreOwners};
ghost use Rattle.partition.specs.declared.part_text.refusals.PartRefusal.{PartRefusal as Refusal};
ghost use Rattle.partition.specs.Spelling.{Table, no_ranks, Spells};
ghost use Rattle.partition.specs.Reading.{Magic, Between, SetName, Count, filled, set_of, named, sized, ranked, stray, gathered, run_from};
ghost use Rattle.partition.specs.Reading.{Refuses, Reads, Read as Outcome};
ghost use Rattle.partition.specs.Answered.{Leads, LeadsToSet};

use crate::part_text::refusals::PartRefusal;
use crate::part_text::token::{Keyword, is_magic, is_version, read_keyword};
use mesh_decl::{Mesh, Numbers, Owners};
use op_num::texts::{Token, Tokens};
use op_num::{NumRefusal, read_u64};
use std::alloc::Global;

/// The owners that the partition text `bytes` spells for a mesh and this number of ranks: for each set of the mesh, in
/// order of declaration, the rank of each of its elements, each below `ranks`. The text may name the sets in any order.
/// Each refusal is that of the first token, in order, that may not stand where it does, or of the end; `PartRefusal`
/// says what each is. Lines are counted in `u32`, so the text has fewer than 2 ^ 32 - 1 bytes. Where several sets of
/// the mesh have one name, it is the name of the last of them, so that no text gives the others their ranks. It takes
/// time linear in the bytes, and for each `set` of the text as many comparisons of names as the mesh has sets.
pub fn read_partition(
    alloc: Global,
    bytes: &[u8],
    mesh: &Mesh,
    ranks: u32,
) -> Result<Owners, PartRefusal>
    requires { length bytes.now + 1 < 2 ^ 32 }
    // What is given is spelled so.
    ensures found { IfOk result (λ o. Spells mesh.now ranks bytes.now o.sets.items) }
    ensures ranks { IfOk result (λ o. o.ranks ≡ ranks) }
    // So each element of each set has a rank.
    ensures owners { 0 < ranks → ranks ≤ 64 → IfOk result (AreOwners mesh.now) }
    // What is spelled so is given, unless memory runs out.
    ensures only { (owners : List (List ℕ)) → Spells mesh.now ranks bytes.now owners
        → IsGiven Refusal.OutOfMemory result (λ o. o.sets.items ≡ owners) }
    // Each refusal is the first, in the order of the tokens.
    ensures refused { IfErr result (λ r. (r ≡ Refusal.OutOfMemory) ⊎ Refuses mesh.now ranks bytes.now r) }
    // And the first refusal is given, unless memory runs out.
    ensures refuses { (r : Refusal) → Refuses mesh.now ranks bytes.now r → IsRefused Refusal.OutOfMemory result r }
{
    read(alloc, bytes, mesh, ranks)
}

/// A law: a text spells at most one partition of a mesh.
pub fn one_partition()
    ensures { (mesh : MeshValue) (ranks : ℕ) (bytes : List ℕ) (a b : List (List ℕ)) → Spells mesh ranks bytes a
        → Spells mesh ranks bytes b → a ≡ b }
{}

/// A law: a text comes to one outcome, a partition of the mesh or a refusal, and no refusal is want of memory.
pub fn one_outcome()
    ensures one { (mesh : MeshValue) (ranks : ℕ) (bytes : List ℕ) (a b : Outcome) → Reads mesh ranks bytes a → Reads mesh ranks bytes b
        → a ≡ b }
    ensures some { (mesh : MeshValue) (ranks : ℕ) (bytes : List ℕ) → (o : Outcome) × Reads mesh ranks bytes o }
    ensures causes { (mesh : MeshValue) (ranks : ℕ) (bytes : List ℕ) → ¬ Refuses mesh ranks bytes Refusal.OutOfMemory }
{}

fn read(alloc: Global, bytes: &[u8], mesh: &Mesh, ranks: u32) -> Result<Owners, PartRefusal>
    requires { length bytes.now + 1 < 2 ^ 32 }
    ensures answers { Answers Refusal.OutOfMemory result (λ o. o.sets.items) (run_from mesh.now ranks Magic (uncut bytes.now)) }
    ensures ranks { IfOk result (λ o. o.ranks ≡ ranks) }
{
    let mut tokens = Tokens::new(bytes);
    read_header(&mut tokens, mesh, ranks)?;
    let mut table = unowned(alloc, mesh)?;
    while let Some(set) = next_set(&mut tokens, mesh, ranks, &table)? {
        let owners = read_ranks(alloc, &mut tokens, mesh, set, ranks)?;
        table[set as usize] = Some(owners);
    }
    let sets = gather(alloc, table, tokens.last())?;
    match tokens.next() {
        None => Ok(Owners { ranks, sets }),
        Some(token) => Err(PartRefusal::Syntax { line: token.line() }),
    }
}

// No set has its ranks.
fn unowned(alloc: Global, mesh: &Mesh) -> Result<Vec<Option<Numbers>>, PartRefusal>
    ensures table { IfOk result (λ v. v.items ≡ no_ranks mesh.now) }
    ensures err { IfErr result (λ e. e ≡ Refusal.OutOfMemory) }
{
    let mut table = Vec::new(alloc);
    for _ in 0..mesh.set_count() {
        table.push(None)?;
    }
    Ok(table)
}

// The ranks of every set, at a `done` on this line.
fn gather(
    alloc: Global,
    table: Vec<Option<Numbers>>,
    line: u32,
) -> Result<Vec<Numbers>, PartRefusal>
    ensures { Answers Refusal.OutOfMemory result (λ v. v.items) (gathered line table.items) }
{
    let mut sets = Vec::new(alloc);
    for given in table {
        match given {
            Some(owners) => sets.push(owners)?,
            None => return Err(PartRefusal::MissingSet { line }),
        }
    }
    Ok(sets)
}

fn read_header(tokens: &mut Tokens<'_>, mesh: &Mesh, ranks: u32) -> Result<(), PartRefusal>
    ensures { Leads mesh.now ranks Magic tokens.old result (λ _. Between (no_ranks mesh.now)) tokens.new }
{
    let magic = next_in_header(tokens)?;
    if !is_magic(magic.text()) {
        return Err(PartRefusal::Header { line: magic.line() });
    }
    let version = next_in_header(tokens)?;
    if !is_version(version.text()) {
        return Err(PartRefusal::Header {
            line: version.line(),
        });
    }
    Ok(())
}

// The next set, behind `set` and its name, or none behind `done`.
fn next_set(
    tokens: &mut Tokens<'_>,
    mesh: &Mesh,
    ranks: u32,
    table: &[Option<Numbers>],
) -> Result<Option<u32>, PartRefusal>
    requires { length table.now ≡ set_count mesh.now }
    ensures leads { LeadsToSet mesh.now ranks table.now tokens.old result tokens.new }
    ensures within { IfOk result (λ o. IfSome o (λ k. k < set_count mesh.now)) }
    ensures fewer { OnOk result (length tokens.new.words < length tokens.old.words) }
{
    let token = next_in_set(tokens)?;
    match read_keyword(token.text()) {
        Some(Keyword::Set) => {
            let set = free_set(&next_in_set(tokens)?, mesh, table)?;
            Ok(Some(set))
        }
        Some(Keyword::Done) => Ok(None),
        None => Err(stray_token(&token)),
    }
}

// Why a token is neither `set` nor `done`.
fn stray_token(token: &Token<'_>) -> PartRefusal
    ensures { result ≡ stray (number_of token.now.text) token.now.line }
{
    match read_u64(token.text()) {
        Err(NumRefusal::NotDigits) => PartRefusal::Syntax { line: token.line() },
        _ => PartRefusal::WrongCount { line: token.line() },
    }
}

// The set that a token names, which has no ranks.
#[tactic(auto, unfolding(crate::specs::Reading::named))]
fn free_set(token: &Token<'_>, mesh: &Mesh, table: &[Option<Numbers>]) -> Result<u32, PartRefusal>
    requires { length table.now ≡ set_count mesh.now }
    ensures is { result ≡ named table.now (set_of mesh.now token.now.text) token.now.line }
    ensures within { IfOk result (λ k. k < set_count mesh.now) }
{
    let Some(set) = find_set(mesh, token.text()) else {
        return Err(PartRefusal::UnknownSet { line: token.line() });
    };
    if table[set as usize].is_some() {
        return Err(PartRefusal::Syntax { line: token.line() });
    }
    Ok(set)
}

// The set of this name.
#[tactic(auto, unfolding(crate::specs::Reading::set_of))]
fn find_set(mesh: &Mesh, name: &[u8]) -> Option<u32>
    ensures is { result ≡ set_of mesh.now name.now }
    ensures within { IfSome result (λ k. k < set_count mesh.now) }
{
    let mut set = mesh.set_count();
    while set > 0 {
        set -= 1;
        if mesh.set_name(set).bytes() == name {
            return Some(set);
        }
    }
    None
}

// The size of a set, and the rank of each of its elements.
fn read_ranks(
    alloc: Global,
    tokens: &mut Tokens<'_>,
    mesh: &Mesh,
    set: u32,
    ranks: u32,
) -> Result<Numbers, PartRefusal>
    requires { set < set_count mesh.now }
    ensures leads { (t : Table)
        → Leads mesh.now ranks (Count t set) tokens.old result (λ rs. Between (slice_set t set (Some rs))) tokens.new }
    ensures fewer { OnOk result (length tokens.new.words ≤ length tokens.old.words) }
{
    let mut left = size_value(&next_in_set(tokens)?, mesh.set_size(set))?;
    let mut owners = Vec::new(alloc);
    while left > 0 {
        let rank = rank_value(&next_rank(tokens)?, ranks)?;
        owners.push(rank)?;
        left -= 1;
    }
    Ok(Numbers::new(owners))
}

#[tactic(auto, unfolding(crate::specs::Reading::sized))]
fn size_value(token: &Token<'_>, size: u32) -> Result<u32, PartRefusal>
    ensures { result ≡ sized size (number_of token.now.text) token.now.line }
{
    match read_u64(token.text()) {
        Ok(count) => {
            if count != size as u64 {
                return Err(PartRefusal::WrongCount { line: token.line() });
            }
            Ok(size)
        }
        Err(NumRefusal::NotDigits) => Err(PartRefusal::Syntax { line: token.line() }),
        Err(NumRefusal::TooLarge) => Err(PartRefusal::WrongCount { line: token.line() }),
    }
}

#[tactic(auto, unfolding(crate::specs::Reading::ranked))]
fn rank_value(token: &Token<'_>, ranks: u32) -> Result<u32, PartRefusal>
    ensures { result ≡ ranked ranks (number_of token.now.text) token.now.line }
{
    match read_u64(token.text()) {
        Ok(rank) => {
            if rank >= ranks as u64 {
                return Err(PartRefusal::RankRange { line: token.line() });
            }
            Ok(rank as u32)
        }
        Err(NumRefusal::NotDigits) => Err(PartRefusal::WrongCount { line: token.line() }),
        Err(NumRefusal::TooLarge) => Err(PartRefusal::RankRange { line: token.line() }),
    }
}

fn next_in_header<'a>(tokens: &mut Tokens<'a>) -> Result<Token<'a>, PartRefusal>
    ensures some { IfOk result (IsNext tokens.old tokens.new) }
    ensures none { IfErr result (λ e. (first_of tokens.old ≡ None) × (e ≡ Refusal.Header tokens.old.last)) }
{
    match tokens.next() {
        Some(token) => Ok(token),
        None => Err(PartRefusal::Header {
            line: tokens.last(),
        }),
    }
}

fn next_in_set<'a>(tokens: &mut Tokens<'a>) -> Result<Token<'a>, PartRefusal>
    ensures some { IfOk result (IsNext tokens.old tokens.new) }
    ensures none { IfErr result (λ e. (first_of tokens.old ≡ None) × (e ≡ Refusal.Syntax tokens.old.last)) }
{
    match tokens.next() {
        Some(token) => Ok(token),
        None => Err(PartRefusal::Syntax {
            line: tokens.last(),
        }),
    }
}

fn next_rank<'a>(tokens: &mut Tokens<'a>) -> Result<Token<'a>, PartRefusal>
    ensures some { IfOk result (IsNext tokens.old tokens.new) }
    ensures none { IfErr result (λ e. (first_of tokens.old ≡ None) × (e ≡ Refusal.WrongCount tokens.old.last)) }
{
    match tokens.next() {
        Some(token) => Ok(token),
        None => Err(PartRefusal::WrongCount {
            line: tokens.last(),
        }),
    }
}
