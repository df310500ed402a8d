// Reading a mesh text.
ghost use Rattle.std.specs.Prelude.{◌≡◌, ◌+◌, ◌-◌, ◌<◌, ◌≤◌, ◌^◌, ◌⊎◌, false, length, List, ℕ, [], ◌∷◌, ◌++◌, OnOk, IfOk, IfErr, Ok, Err};
ghost use Rattle.std.specs.Prelude.{Some, None, ℤ};
ghost use Rattle.op_num.specs.Spelling.{number_of, integer_of, i32_judged};
ghost use lib.ListN.{replicate};
ghost use Rattle.op_num.specs.Cut.{uncut, first_of, rest_of};
ghost use Rattle.mesh_decl.specs.declared.text.entry.Form.{Form as Version};
ghost use Rattle.mesh_decl.specs.declared.text.entry.MeshRefusal.{MeshRefusal as Refusal};
ghost use Rattle.mesh_decl.specs.declared.text.entry.Entry.TheVariants as Given;
ghost use Rattle.mesh_decl.specs.Spelling.{Named, Spells, total as total_of, size_of, has_name};
ghost use Rattle.mesh_decl.specs.Piece.{piece_of};
ghost use Rattle.mesh_decl.specs.Reading.{Magic, Between, OneName, ManyName, End, filled, named, one_of, count_of, given, room_for, stray};
ghost use Rattle.mesh_decl.specs.Reading.{run_from, Refuses, Reads, Read as Outcome};
ghost use Rattle.op_num.specs.Automaton.{Answers, Told, IsNext, IsGiven, IsRefused};
ghost use Rattle.mesh_decl.specs.Answered.{Leads, Fitting, next_state};

use crate::text::entry::{Entries, Entry, Form, MESH_VALUES, MeshRefusal, Values};
use crate::text::piece::{Piece, read_piece};
use crate::text::token::{Keyword, is_magic, is_name, read_keyword, read_version};
use op_num::texts::{Token, Tokens};
use op_num::{Name, NumRefusal, read_i32, read_u64};
use std::alloc::Global;

/// The entries that the mesh text `bytes` spells, in either version of the text. It takes `Entries` of at most
/// [`MESH_VALUES`] values in all. Each refusal is that of the first token, in order, that may not stand where it does,
/// or of the end; `MeshRefusal` says what each is. In one token `NumberRange` comes before `WrongCount` and `Limit`.
/// Lines are counted in `u32`, so the text has fewer than 2 ^ 32 - 1 bytes.
pub fn read_mesh(alloc: Global, bytes: &[u8]) -> Result<Entries, MeshRefusal>
    requires { length bytes.now + 1 < 2 ^ 32 }
    // What is given is spelled so, with no more values than the limit.
    ensures found { IfOk result (λ m. Spells bytes.now m.entries × (total_of m.entries ≤ MESH_VALUES)) }
    // What is spelled so is given, unless memory runs out.
    ensures only { (es : List Named) → Spells bytes.now es → total_of es ≤ MESH_VALUES
        → IsGiven Refusal.OutOfMemory result (λ m. m.entries ≡ es) }
    // Each refusal is the first, in the order of the tokens.
    ensures refused { IfErr result (λ r. (r ≡ Refusal.OutOfMemory) ⊎ Refuses bytes.now r) }
    // And the first refusal is given, unless memory runs out.
    ensures refuses { (r : Refusal) → Refuses bytes.now r → IsRefused Refusal.OutOfMemory result r }
{
    read(alloc, bytes)
}

/// A law: a text spells at most one list of entries of at most [`MESH_VALUES`] values.
pub fn one_spelling()
    ensures { (bytes : List ℕ) (a b : List Named) → Spells bytes a → Spells bytes b → total_of a ≤ MESH_VALUES → total_of b ≤ MESH_VALUES
        → a ≡ b }
{}

/// A law: a text comes to one outcome, its entries within the limit or a refusal, and no refusal is want of memory.
pub fn one_outcome()
    ensures one { (bytes : List ℕ) (a b : Outcome) → Reads bytes a → Reads bytes b → a ≡ b }
    ensures some { (bytes : List ℕ) → (o : Outcome) × Reads bytes o }
    ensures causes { (bytes : List ℕ) → ¬ Refuses bytes Refusal.OutOfMemory }
{}

fn read(alloc: Global, bytes: &[u8]) -> Result<Entries, MeshRefusal>
    requires { length bytes.now + 1 < 2 ^ 32 }
    ensures { Answers Refusal.OutOfMemory result (λ m. m.entries) (run_from Magic (uncut bytes.now)) }
{
    let mut tokens = Tokens::new(bytes);
    let form = read_header(&mut tokens)?;
    let mut entries = Entries::new(alloc);
    let mut total = 0;
    let most = bytes.len();
    while let Some((name, entry)) = read_entry(alloc, &mut tokens, form, &entries, total, most)? {
        total += entry_size(&entry);
        add_entry(&mut entries, name, entry)?;
    }
    match tokens.next() {
        None => Ok(entries),
        Some(token) => Err(MeshRefusal::Syntax { line: token.line() }),
    }
}

fn entry_size(entry: &Entry) -> u64
    ensures { (name : List ℕ) → result ≡ size_of (name, entry.now) }
{
    match entry {
        Entry::One(_) => 1,
        Entry::Many(values) => values.as_slice().len() as u64,
    }
}

// Adds an entry with a new name at the end.
fn add_entry(entries: &mut Entries, name: Name, entry: Entry) -> Result<(), MeshRefusal>
    requires { has_name name entries.old.entries ≡ false }
    ensures ok { OnOk result (entries.new.entries ≡ entries.old.entries ++ (name, entry) ∷ []) }
    ensures err { IfErr result (λ e. e ≡ Refusal.OutOfMemory) }
{
    entries.insert(name, entry)?;
    Ok(())
}

fn read_header(tokens: &mut Tokens<'_>) -> Result<Form, MeshRefusal>
    ensures { Leads Magic tokens.old result (λ f. Between f []) tokens.new }
{
    let magic = next_in_header(tokens)?;
    if !is_magic(magic.text()) {
        return Err(MeshRefusal::Header { line: magic.line() });
    }
    let version = next_in_header(tokens)?;
    match read_version(version.text()) {
        Some(form) => Ok(form),
        None => Err(MeshRefusal::Header {
            line: version.line(),
        }),
    }
}

// The next entry of a text of `most` bytes, or none behind `done`.
fn read_entry(
    alloc: Global,
    tokens: &mut Tokens<'_>,
    form: Form,
    entries: &Entries,
    total: u64,
    most: usize,
) -> Result<Option<(Name, Entry)>, MeshRefusal>
    requires total { total ≡ total_of entries.now.entries }
    requires room { total ≤ MESH_VALUES }
    ensures leads { Leads (Between form entries.now.entries) tokens.old result (next_state form entries.now.entries) tokens.new }
    ensures fitting { IfOk result (Fitting entries.now.entries) }
    ensures fewer { OnOk result (length tokens.new.words < length tokens.old.words) }
{
    let token = next_in_entry(tokens)?;
    match read_keyword(token.text()) {
        Some(Keyword::Int) => {
            let (name, value) = read_one(alloc, tokens, entries, total)?;
            Ok(Some((name, Entry::One(value))))
        }
        Some(Keyword::Ints) => {
            let (name, values) = read_many(alloc, tokens, form, entries, total, most)?;
            Ok(Some((name, Entry::Many(values))))
        }
        Some(Keyword::Done) => Ok(None),
        None => Err(stray_token(form, &token)),
    }
}

// Why a token begins no entry.
fn stray_token(form: Form, token: &Token<'_>) -> MeshRefusal
    ensures { result ≡ stray (piece_of form token.now.text) token.now.line }
{
    match read_piece(form, token.text()) {
        Piece::NoPiece => MeshRefusal::Syntax { line: token.line() },
        Piece::OutOfRange => MeshRefusal::NumberRange { line: token.line() },
        _ => MeshRefusal::WrongCount { line: token.line() },
    }
}

// What stands behind `int`.
fn read_one(
    alloc: Global,
    tokens: &mut Tokens<'_>,
    entries: &Entries,
    total: u64,
) -> Result<(Name, i32), MeshRefusal>
    requires total { total ≡ total_of entries.now.entries }
    requires room { total ≤ MESH_VALUES }
    ensures leads { (f : Version)
        → Leads (OneName f entries.now.entries) tokens.old result (λ e. Between f (entries.now.entries
        ++ (e.0, Given.One e.1) ∷ [])) tokens.new }
    ensures new { IfOk result (λ e. has_name e.0 entries.now.entries ≡ false) }
    ensures within { OnOk result (total + 1 ≤ MESH_VALUES) }
    ensures fewer { OnOk result (length tokens.new.words ≤ length tokens.old.words) }
{
    let name = new_name(alloc, &next_in_entry(tokens)?, entries)?;
    let value = one_value(&next_in_entry(tokens)?, total)?;
    Ok((name, value))
}

// What stands behind `ints`, of a text of `most` bytes.
fn read_many(
    alloc: Global,
    tokens: &mut Tokens<'_>,
    form: Form,
    entries: &Entries,
    total: u64,
    most: usize,
) -> Result<(Name, Values), MeshRefusal>
    requires total { total ≡ total_of entries.now.entries }
    requires room { total ≤ MESH_VALUES }
    ensures leads { Leads (ManyName form entries.now.entries) tokens.old result (λ e. Between form (entries.now.entries
        ++ (e.0, Given.Many e.1) ∷ [])) tokens.new }
    ensures new { IfOk result (λ e. has_name e.0 entries.now.entries ≡ false) }
    ensures within { IfOk result (λ e. total + length e.1 ≤ MESH_VALUES) }
    ensures fewer { OnOk result (length tokens.new.words ≤ length tokens.old.words) }
{
    let name = new_name(alloc, &next_in_entry(tokens)?, entries)?;
    let count = count_value(&next_in_entry(tokens)?, total)?;
    let values = read_values(alloc, tokens, form, count, most)?;
    Ok((name, values))
}

// That many values. At first there is room for `most` of them at most.
fn read_values(
    alloc: Global,
    tokens: &mut Tokens<'_>,
    form: Form,
    count: u64,
    most: usize,
) -> Result<Values, MeshRefusal>
    requires { count < 2 ^ 31 }
    ensures leads { (es : List Named) (name : List ℕ)
        → Leads (filled form es name count []) tokens.old result (λ zs. Between form (es ++ (name, Given.Many zs) ∷ [])) tokens.new }
    ensures size { IfOk result (λ zs. length zs ≡ count) }
    ensures fewer { OnOk result (length tokens.new.words ≤ length tokens.old.words) }
{
    let mut values = Vec::with_capacity(alloc, most.min(count as usize))?;
    let mut left = count;
    while left > 0 {
        let (times, value) = next_values(tokens, form, left)?;
        add_values(&mut values, times, value)?;
        left -= times;
    }
    Ok(Values::new(values))
}

// The values that the next token gives, where some are awaited.
fn next_values(tokens: &mut Tokens<'_>, form: Form, left: u64) -> Result<(u64, i32), MeshRefusal>
    requires { 0 < left }
    ensures leads { (es : List Named) (name : List ℕ) (zs : List ℤ)
        → Leads (filled form es name left zs) tokens.old result
        (λ g. filled form es name (left - g.0) (zs ++ replicate g.0 g.1)) tokens.new }
    ensures some { IfOk result (λ g. (0 < g.0) × (g.0 ≤ left)) }
    ensures fewer { OnOk result (length tokens.new.words < length tokens.old.words) }
{
    if let Some(value) = tokens.next_short() {
        return Ok((1, value));
    }
    let token = next_value(tokens)?;
    let given = given_values(&token, form, left)?;
    Ok(given)
}

// Appends a value that stands a number of times.
fn add_values(values: &mut Vec<i32>, times: u64, value: i32) -> Result<(), MeshRefusal>
    requires { times < 2 ^ 32 }
    ensures ok { OnOk result (values.new.items ≡ values.old.items ++ replicate times value) }
    ensures err { IfErr result (λ e. e ≡ Refusal.OutOfMemory) }
{
    if times == 1 {
        values.push(value)?;
    } else {
        values.resize(values.len() + times as usize, value)?;
    }
    Ok(())
}

// A name that no entry has.
#[tactic(auto, unfolding(crate::specs::Reading::named))]
fn new_name(alloc: Global, token: &Token<'_>, entries: &Entries) -> Result<Name, MeshRefusal>
    ensures told { Told Refusal.OutOfMemory result (named entries.now.entries token.now) }
    ensures new { IfOk result (λ n. has_name n entries.now.entries ≡ false) }
{
    if !is_name(token.text()) {
        return Err(MeshRefusal::Syntax { line: token.line() });
    }
    let name = Name::new(Vec::from_slice(alloc, token.text())?);
    if entries.contains_key(&name) {
        return Err(MeshRefusal::DuplicateEntry { line: token.line() });
    }
    Ok(name)
}

#[tactic(auto, unfolding(crate::specs::Reading::one_of))]
fn one_value(token: &Token<'_>, total: u64) -> Result<i32, MeshRefusal>
    requires { total ≤ MESH_VALUES }
    ensures is { result ≡ one_of total token.now.line (i32_judged (integer_of token.now.text)) }
    ensures within { OnOk result (total + 1 ≤ MESH_VALUES) }
{
    match read_i32(token.text()) {
        Ok(value) => {
            check_room(total, 1)?;
            Ok(value)
        }
        Err(NumRefusal::NotDigits) => Err(MeshRefusal::Syntax { line: token.line() }),
        Err(NumRefusal::TooLarge) => Err(MeshRefusal::NumberRange { line: token.line() }),
    }
}

#[tactic(auto, unfolding(crate::specs::Reading::count_of))]
fn count_value(token: &Token<'_>, total: u64) -> Result<u64, MeshRefusal>
    requires { total ≤ MESH_VALUES }
    ensures is { result ≡ count_of total token.now.line (number_of token.now.text) }
    ensures within { IfOk result (λ n. (total + n ≤ MESH_VALUES) × (n < 2 ^ 31)) }
{
    match read_u64(token.text()) {
        Ok(count) => {
            if count > 2147483647 {
                return Err(MeshRefusal::NumberRange { line: token.line() });
            }
            check_room(total, count)?;
            Ok(count)
        }
        Err(NumRefusal::NotDigits) => Err(MeshRefusal::Syntax { line: token.line() }),
        Err(NumRefusal::TooLarge) => Err(MeshRefusal::NumberRange { line: token.line() }),
    }
}

// Whether that many values more are within the limit.
fn check_room(total: u64, more: u64) -> Result<(), MeshRefusal>
    requires total { total ≤ MESH_VALUES }
    requires more { more < 2 ^ 31 }
    ensures is { result ≡ room_for total more tt }
    ensures within { OnOk result (total + more ≤ MESH_VALUES) }
{
    if total + more > MESH_VALUES {
        return Err(MeshRefusal::Limit { size: total + more });
    }
    Ok(())
}

// The values that a token gives where some are awaited.
#[tactic(auto, unfolding(crate::specs::Reading::given))]
fn given_values(token: &Token<'_>, form: Form, left: u64) -> Result<(u64, i32), MeshRefusal>
    ensures is { result ≡ given left token.now.line (piece_of form token.now.text) }
    ensures some { IfOk result (λ g. (0 < g.0) × (g.0 ≤ left)) }
{
    match read_piece(form, token.text()) {
        Piece::Values { times, value } => {
            if times > left {
                return Err(MeshRefusal::WrongCount { line: token.line() });
            }
            Ok((times, value))
        }
        Piece::OutOfRange => Err(MeshRefusal::NumberRange { line: token.line() }),
        Piece::NoPiece | Piece::NoTimes => Err(MeshRefusal::WrongCount { line: token.line() }),
    }
}

fn next_in_header<'a>(tokens: &mut Tokens<'a>) -> Result<Token<'a>, MeshRefusal>
    ensures some { IfOk result (IsNext tokens.old tokens.new) }
    ensures none { IfErr result (λ e. (first_of tokens.old ≡ None) × (e ≡ Refusal.Header tokens.old.last)) }
{
    match tokens.next() {
        Some(token) => Ok(token),
        None => Err(MeshRefusal::Header {
            line: tokens.last(),
        }),
    }
}

fn next_in_entry<'a>(tokens: &mut Tokens<'a>) -> Result<Token<'a>, MeshRefusal>
    ensures some { IfOk result (IsNext tokens.old tokens.new) }
    ensures none { IfErr result (λ e. (first_of tokens.old ≡ None) × (e ≡ Refusal.Syntax tokens.old.last)) }
{
    match tokens.next() {
        Some(token) => Ok(token),
        None => Err(MeshRefusal::Syntax {
            line: tokens.last(),
        }),
    }
}

fn next_value<'a>(tokens: &mut Tokens<'a>) -> Result<Token<'a>, MeshRefusal>
    ensures some { IfOk result (IsNext tokens.old tokens.new) }
    ensures none { IfErr result (λ e. (first_of tokens.old ≡ None) × (e ≡ Refusal.WrongCount tokens.old.last)) }
{
    match tokens.next() {
        Some(token) => Ok(token),
        None => Err(MeshRefusal::WrongCount {
            line: tokens.last(),
        }),
    }
}
