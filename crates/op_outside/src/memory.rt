// A shelf and a sink over memory, whose calls fail where their makers say.
ghost use Rattle.std.specs.Prelude.{◌≡◌, ◌≢◌, ◌-◌, ◌<◌, ◌≤◌, ◌↔◌, ◌⊎◌, ◌++◌, ◌+◌, min, true, List, ℕ, Some, None, [], length, take, IsErr};
ghost use Rattle.std.specs.Prelude.{IsOk, OnOk, OnErr, IfOk, IsErrOf, string_bytes, vec_len, vec_capacity};
ghost use Rattle.op_outside.specs.Script.{IsFresh, Passes, Fails, is_due, failed};

use crate::part::copy_part;
use crate::script::Script;
use crate::{Failed, OutOfMemory, Shelf, ShelfFault, Sink};
use std::alloc::Global;
use std::collections::BTreeMap;

/// Files in memory, by name. It tells its files and lends every name.
#[derive(Drop)]
pub struct MemoryShelf {
    files: BTreeMap<String, Vec<u8>>,
    script: Script,
}

impl MemoryShelf {
    ghost use Rattle.op_outside.specs.Memory.{held, shelf_script};

    /// A shelf without files, whose calls with the numbers `fails`, from 0, fail. Takes no memory.
    pub fn new(alloc: Global, fails: Vec<u64>) -> MemoryShelf
        ensures empty { (name : List ℕ) → held result name ≡ None }
        ensures fresh { IsFresh (shelf_script result) fails.items }
    {
        MemoryShelf {
            files: BTreeMap::new(alloc),
            script: Script::new(fails),
        }
    }

    /// Holds the file `name` with these bytes from now on, in place of one with the same name.
    pub fn hold(&mut self, name: String, bytes: Vec<u8>) -> Result<(), OutOfMemory>
        ensures ok { OnOk result (held self.new (string_bytes name) ≡ Some bytes.items) }
        ensures others { OnOk result ((other : List ℕ) → other ≢ string_bytes name → held self.new other ≡ held self.old other) }
        ensures err { OnErr result ((other : List ℕ) → held self.new other ≡ held self.old other) }
        ensures script { shelf_script self.new ≡ shelf_script self.old }
    {
        self.files.insert(name, bytes)?;
        Ok(())
    }
}

impl Shelf for MemoryShelf {
    ghost use Rattle.op_outside.specs.Memory.{held, shelf_script};
    ghost use Rattle.op_outside.specs.Outside.{Holds, IsPart, Lacks, Rose};

    ghost told = { λ shelf. Some (held shelf) };

    ghost faults = { λ shelf. failed (shelf_script shelf) };

    ghost lends = { λ _ _. Unit {0} };

    /// Reads as the trait says. The call fails exactly where its number is among those that are to fail, and else the
    /// file is missing exactly where none is held under the name.
    fn read_at(&mut self, name: &str, from: u64, into: &mut [u8]) -> Result<usize, ShelfFault>
        ensures told { Some (held self.new) ≡ Some (held self.old) }
        ensures lends { List ℕ → Unit {0} ↔ Unit {0} }
        ensures never_falls { failed (shelf_script self.old) ≤ failed (shelf_script self.new) }
        ensures calm { OnOk result (failed (shelf_script self.new) ≡ failed (shelf_script self.old)) }
        ensures failed { IsErrOf result ShelfFault.Failed → Rose (failed (shelf_script self.old)) (failed (shelf_script self.new)) }
        ensures fits { IfOk result (λ n. n ≤ length into.old) }
        ensures read { IfOk result (λ n. Holds (Some (held self.old)) name.now (λ bytes. IsPart bytes from n into.new)) }
        ensures missing { IsErrOf result ShelfFault.Missing → Lacks (Some (held self.old)) name.now }
        ensures missing_calm { IsErrOf result ShelfFault.Missing → failed (shelf_script self.new) ≡ failed (shelf_script self.old) }
        ensures err { OnErr result (into.new ≡ into.old) }
        ensures due { IsErrOf result ShelfFault.Failed ↔ (is_due (shelf_script self.old) ≡ true) }
        ensures passes { IsOk result ⊎ IsErrOf result ShelfFault.Missing → Passes (shelf_script self.old) (shelf_script self.new) }
        ensures fails { IsErrOf result ShelfFault.Failed → Fails (shelf_script self.old) (shelf_script self.new) }
    {
        if self.script.next_fails() {
            self.script.fail();
            return Err(ShelfFault::Failed);
        }
        match self.files.get(name) {
            None => Err(ShelfFault::Missing),
            Some(bytes) => Ok(copy_part(bytes, from, into)),
        }
    }
}

/// Bytes in memory. It tells what was written to it.
#[derive(Drop)]
pub struct MemorySink {
    bytes: Vec<u8>,
    room: usize,
    script: Script,
    ghost has_room: { vec_len bytes + room ≤ vec_capacity bytes },
}

impl MemorySink {
    ghost use Rattle.op_outside.specs.Memory.{taken, room_left, sink_script};

    /// An empty sink with room for `room` bytes, whose calls with the numbers `fails`, from 0, fail.
    /// The room is taken here, and no write takes memory.
    pub fn new(alloc: Global, room: usize, fails: Vec<u64>) -> Result<MemorySink, OutOfMemory>
        ensures empty { IfOk result (λ sink. taken sink ≡ []) }
        ensures room { IfOk result (λ sink. room_left sink ≡ room) }
        ensures fresh { IfOk result (λ sink. IsFresh (sink_script sink) fails.items) }
    {
        Ok(MemorySink {
            bytes: Vec::with_capacity(alloc, room)?,
            room,
            script: Script::new(fails),
        })
    }

    /// The bytes written.
    pub fn bytes(&self) -> &[u8]
        ensures { result.now ≡ taken self.now }
    {
        &self.bytes
    }
}

impl Sink for MemorySink {
    ghost use Rattle.op_outside.specs.Memory.{taken, room_left, sink_script};
    ghost use Rattle.op_outside.specs.Outside.{Rose, appended};

    ghost written = { λ sink. Some (taken sink) };

    ghost faults = { λ sink. failed (sink_script sink) };

    /// Writes as the trait says. It takes as many bytes of the piece as there is room for, and fails exactly where the
    /// call's number is among those that are to fail, or where there is no room for a piece that isn't empty.
    fn write(&mut self, piece: &[u8]) -> Result<usize, Failed>
        ensures never_falls { failed (sink_script self.old) ≤ failed (sink_script self.new) }
        ensures calm { OnOk result (failed (sink_script self.new) ≡ failed (sink_script self.old)) }
        ensures failed { OnErr result (Rose (failed (sink_script self.old)) (failed (sink_script self.new))) }
        ensures fits { IfOk result (λ n. n ≤ length piece.now) }
        ensures moves { IfOk result (λ n. 0 < length piece.now → 0 < n) }
        ensures ok { IfOk result (λ n. Some (taken self.new) ≡ appended (Some (taken self.old)) (take n piece.now)) }
        ensures err { OnErr result (Some (taken self.new) ≡ Some (taken self.old)) }
        ensures due { IsErr result ↔ ((is_due (sink_script self.old) ≡ true) ⊎ ((room_left self.old ≡ 0) × (0 < length piece.now))) }
        ensures count { IfOk result (λ n. n ≡ min (length piece.now) (room_left self.old)) }
        ensures room { IfOk result (λ n. room_left self.new ≡ room_left self.old - n) }
        ensures full { OnErr result (room_left self.new ≡ room_left self.old) }
        ensures passes { OnOk result (Passes (sink_script self.old) (sink_script self.new)) }
        ensures fails { OnErr result (Fails (sink_script self.old) (sink_script self.new)) }
    {
        let due = self.script.next_fails();
        let count = piece.len().min(self.room);
        if due || (count == 0 && !piece.is_empty()) {
            self.script.fail();
            return Err(Failed);
        }
        self.room -= count;
        self.bytes.extend_from_slice(&piece[..count]).unwrap();
        Ok(count)
    }
}
