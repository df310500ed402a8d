// The readings that are still to come, and what is kept for them.

ghost use Rattle.std.specs.Prelude.{◌≡◌, ◌≤◌, ◌<◌, ◌^◌, ◌↔◌, ◌++◌, List, ℕ, [], ◌∷◌, Some, None, length, vec_len, drop, option_map};
ghost use Rattle.std.specs.Prelude.{IfOk, OnOk, IfSome, IsSomeAnd, IsErrOf};
ghost use Rattle.std.specs.List.{position};
ghost use Rattle.std.specs.Str.{bytes_eq};
ghost use Rattle.op_outside.specs.Outside.{Rose, Holds, Lacks};
ghost use Rattle.job_inputs.specs.Readings.{names_of, keeping, AreNext, HaveCome, Finds, IsUnseen, IsLarge};

use op_outside::{OutOfMemory, ReadRefusal, Shelf, read_whole};
use std::alloc::Global;
use std::marker::Model;

// A reading that is still to come: of which file, and its bytes, where they were read before.
#[derive(Drop)]
struct Reading<'a> {
    name: &'a str,
    bytes: Option<Vec<u8>>,
}

/// The readings of files that are still to come, in order. Of a name that stands there and was read before, the bytes
/// are kept. Contracts see it as the list of the names, each with its bytes, if they are kept.
#[derive(Drop)]
pub struct Kept<'a> {
    readings: Vec<Reading<'a>>,
}

impl<'a> Model for Kept<'a> {
    ghost use Rattle.std.specs.Prelude.{List, ℕ, Option, map};

    ghost Value = { List (List ℕ × Option (List ℕ)) };

    ghost use Rattle.job_inputs.specs.Views.{reading_of};

    ghost view = { λ k. map reading_of k.readings.items };
}

impl<'a> Kept<'a> {
    /// No reading is to come. Takes no memory.
    pub fn new(alloc: Global) -> Kept<'a>
        ensures { result ≡ [] }
    {
        Kept {
            readings: Vec::new(alloc),
        }
    }

    /// A reading of the file `name` is to come, behind those that are. An error is want of memory.
    pub fn push(&mut self, name: &'a str) -> Result<(), OutOfMemory>
        ensures { OnOk result (self.new ≡ self.old ++ (name.now, None) ∷ []) }
    {
        self.readings.push(Reading { name, bytes: None })?;
        Ok(())
    }

    /// The bytes of the file `name`, which is the next to be read and has at most `limit` bytes; `limit` is below 2 ^
    /// 32. Where it was read before, they are what was read then, and else they are read from the shelf.
    ///
    /// `Failed` comes only where the shelf's count of faults rose in this call, and the file was not read before;
    /// `Missing` only where the files are told and none has the name; `TooLarge` only where the file has more than
    /// `limit` bytes.
    pub fn read<F: Shelf>(
        &mut self,
        alloc: Global,
        shelf: &mut F,
        name: &str,
        limit: u64,
    ) -> Result<Vec<u8>, ReadRefusal>
        requires lent { F.lends shelf.old name.now }
        requires limit { limit < 2 ^ 32 }
        requires next { AreNext (name.now ∷ []) self.old }

        ensures told { F.told shelf.new ≡ F.told shelf.old }
        ensures lends { (n : List ℕ) → F.lends shelf.old n ↔ F.lends shelf.new n }
        ensures never_falls { F.faults shelf.old ≤ F.faults shelf.new }
        ensures calm { OnOk result (F.faults shelf.new ≡ F.faults shelf.old) }

        ensures come { OnOk result (HaveCome (name.now ∷ []) self.old self.new) }

        // Whatever was seen before, these are the bytes of the file.
        ensures read { IfOk result (λ v. Finds (F.told shelf.old) self.old self.new (λ files. files name.now ≡ Some v.items)) }
        ensures fits { IfOk result (λ v. vec_len v ≤ limit) }

        ensures failed { IsErrOf result ReadRefusal.Failed → Rose (F.faults shelf.old) (F.faults shelf.new) }
        ensures unseen { IsErrOf result ReadRefusal.Failed → IsUnseen (F.told shelf.old) self.old name.now }
        ensures missing { IsErrOf result ReadRefusal.Missing → Finds (F.told shelf.old) self.old [] (λ files. files name.now ≡ None) }
        ensures too_large { IsErrOf result ReadRefusal.TooLarge
            → Finds (F.told shelf.old) self.old [] (λ files. IsSomeAnd (files name.now) (λ bytes. limit < length bytes)) }
    {
        let kept = self.next();
        let bytes = bytes_of(alloc, shelf, name, limit, kept)?;
        self.keep(alloc, name, &bytes)?;
        Ok(bytes)
    }

    // The next reading comes: its bytes, if they are kept.
    fn next(&mut self) -> Option<Vec<u8>>
        requires { 0 < length self.old }
        ensures rest { self.new ≡ drop 1 self.old }
        ensures kept { (name : List ℕ) (rest : List (List ℕ)) → names_of self.old ≡ name ∷ rest
            → self.old ≡ (name, option_map (λ v. v.items) result) ∷ drop 1 self.old }
    {
        self.readings.remove(0).bytes
    }

    // The bytes are kept for the first reading of this name, if there is one.
    fn keep(&mut self, alloc: Global, name: &str, bytes: &[u8]) -> Result<(), OutOfMemory>
        ensures { OnOk result (self.new ≡ keeping self.old name.now bytes.now) }
    {
        let Some(place) = place_of(&self.readings, name) else {
            return Ok(());
        };
        self.readings[place].bytes = Some(bytes.to_vec(alloc)?);
        Ok(())
    }
}

// The place of the first reading of this name, if there is one.
fn place_of(readings: &[Reading<'_>], name: &str) -> Option<usize>
    ensures { result ≡ position (λ reading. bytes_eq reading.name.now name.now) readings.now }
{
    readings.iter().position(|reading| reading.name == name)
}

// What was kept of a file, or else what is read of it.
fn bytes_of<F: Shelf>(
    alloc: Global,
    shelf: &mut F,
    name: &str,
    limit: u64,
    kept: Option<Vec<u8>>,
) -> Result<Vec<u8>, ReadRefusal>
    requires lent { F.lends shelf.old name.now }
    requires limit { limit < 2 ^ 32 }
    ensures told { F.told shelf.new ≡ F.told shelf.old }
    ensures lends { (n : List ℕ) → F.lends shelf.old n ↔ F.lends shelf.new n }
    ensures never_falls { F.faults shelf.old ≤ F.faults shelf.new }
    ensures calm { OnOk result (F.faults shelf.new ≡ F.faults shelf.old) }
    ensures fits { IfOk result (λ v. vec_len v ≤ limit) }
    ensures kept { IfOk result (λ v. IfSome (option_map (λ w. w.items) kept) (λ w. v.items ≡ w)) }
    ensures read { IfOk result (λ v. option_map (λ w. w.items) kept ≡ None → Holds (F.told shelf.old) name.now (λ bytes. bytes ≡ v.items)) }
    ensures failed { IsErrOf result ReadRefusal.Failed → Rose (F.faults shelf.old) (F.faults shelf.new) }
    ensures unkept { IsErrOf result ReadRefusal.Failed → option_map (λ w. w.items) kept ≡ None }
    ensures missing { IsErrOf result ReadRefusal.Missing → (option_map (λ w. w.items) kept ≡ None) × Lacks (F.told shelf.old) name.now }
    ensures too_large { IsErrOf result ReadRefusal.TooLarge → IsLarge (F.told shelf.old) name.now limit (option_map (λ w. w.items) kept) }
{
    let Some(bytes) = kept else {
        return read_whole(alloc, shelf, name, limit);
    };
    if bytes.len() as u64 > limit {
        return Err(ReadRefusal::TooLarge);
    }
    Ok(bytes)
}
