// Files, read once and held.
ghost use Rattle.std.specs.Prelude.{◌≡◌, ◌≤◌, ◌<◌, ◌↔◌, List, ℕ, [], ◌∷◌, ◌++◌, All, map, length, IfOk, IfErr, OnOk};
ghost use Rattle.std.specs.List.{position};
ghost use Rattle.std.specs.Str.{bytes_eq};
ghost use Rattle.op_outside.specs.Outside.{Rose, Holds};
ghost use Rattle.explanations.specs.Held.{held as held_by};
ghost use Rattle.tool_command.specs.Held.{IsAsFound, AreHeld, CannotHold};

use command_words::answer_lines::{Failure, Halt, Refusal};
use explanations::held_files::HeldFiles;
use op_num::OutOfMemory;
use op_outside::{ReadRefusal, Shelf, read_whole};
use std::alloc::Global;

/// The most bytes of a file that are held as they are: as many as the greatest limit of `op2` on a file allows.
pub const MOST_BYTES: u64 = 268_435_456;

// Bytes that are too many for each limit of `op2` on a file.
fn too_many(alloc: Global) -> Result<Vec<u8>, OutOfMemory>
    ensures { IfOk result (λ v. MOST_BYTES < length v.items) }
{
    vec![in alloc; 0u8; MOST_BYTES as usize + 1]
}

// The bytes of a file, or too many where it has too many.
fn bytes_of<'a, F: Shelf>(alloc: Global, shelf: &mut F, name: &'a str) -> Result<Vec<u8>, Halt<'a>>
    requires { F.lends shelf.old name.now }
    ensures told { F.told shelf.new ≡ F.told shelf.old }
    ensures lends { (n : List ℕ) → F.lends shelf.old n ↔ F.lends shelf.new n }
    ensures never_falls { F.faults shelf.old ≤ F.faults shelf.new }
    ensures ok { IfOk result (λ v. Holds (F.told shelf.old) name.now (IsAsFound v.items)) }
    ensures err { IfErr result (CannotHold (F.told shelf.old) (name.now ∷ []) (Rose (F.faults shelf.old) (F.faults shelf.new))) }
{
    match read_whole(alloc, shelf, name, MOST_BYTES) {
        Ok(bytes) => Ok(bytes),
        Err(ReadRefusal::TooLarge) => Ok(too_many(alloc)?),
        Err(ReadRefusal::Failed) => Err(Halt::Failed(Failure::Unread(name))),
        Err(ReadRefusal::Missing) => Err(Halt::Refused(Refusal::CannotRead(name))),
        Err(ReadRefusal::OutOfMemory) => Err(Halt::Failed(Failure::OutOfMemory)),
    }
}

// The place of a name among others, if it stands there.
fn place_of(names: &[&str], name: &str) -> Option<usize>
    ensures { result ≡ position (λ other. bytes_eq other.now name.now) names.now }
{
    names.iter().position(|other| *other == name)
}

// Reads one file more, and holds it.
fn hold_new<'a, F: Shelf>(
    alloc: Global,
    shelf: &mut F,
    held: &mut HeldFiles,
    earlier: &[&'a str],
    name: &'a str,
) -> Result<(), Halt<'a>>
    requires lent { F.lends shelf.old name.now }
    requires held { AreHeld (F.told shelf.old) (held_by held.old) (map (λ n. n.now) earlier.now) }
    ensures told { F.told shelf.new ≡ F.told shelf.old }
    ensures lends { (n : List ℕ) → F.lends shelf.old n ↔ F.lends shelf.new n }
    ensures never_falls { F.faults shelf.old ≤ F.faults shelf.new }
    ensures ok { OnOk result (AreHeld (F.told shelf.old) (held_by held.new) (map (λ n. n.now) earlier.now ++ name.now ∷ [])) }
    ensures err { IfErr result (CannotHold (F.told shelf.old) (name.now ∷ []) (Rose (F.faults shelf.old) (F.faults shelf.new))) }
{
    let bytes = bytes_of(alloc, shelf, name)?;
    held.hold(String::from_str(alloc, name)?, bytes)?;
    Ok(())
}

// Holds one file more, unless it is held.
fn hold<'a, F: Shelf>(
    alloc: Global,
    shelf: &mut F,
    held: &mut HeldFiles,
    earlier: &[&'a str],
    name: &'a str,
) -> Result<(), Halt<'a>>
    requires lent { F.lends shelf.old name.now }
    requires held { AreHeld (F.told shelf.old) (held_by held.old) (map (λ n. n.now) earlier.now) }
    ensures told { F.told shelf.new ≡ F.told shelf.old }
    ensures lends { (n : List ℕ) → F.lends shelf.old n ↔ F.lends shelf.new n }
    ensures never_falls { F.faults shelf.old ≤ F.faults shelf.new }
    ensures ok { OnOk result (AreHeld (F.told shelf.old) (held_by held.new) (map (λ n. n.now) earlier.now ++ name.now ∷ [])) }
    ensures err { IfErr result (CannotHold (F.told shelf.old) (name.now ∷ []) (Rose (F.faults shelf.old) (F.faults shelf.new))) }
{
    if place_of(earlier, name).is_some() {
        return Ok(());
    }
    hold_new(alloc, shelf, held, earlier, name)
}

/// The files of these names, each read once, held in memory.
///
/// Refused is a name that the files lack which are told; a file that could not be read is a failure, where the shelf's
/// count of faults rose, and so is want of memory.
pub fn hold_all<'a, F: Shelf>(
    alloc: Global,
    shelf: &mut F,
    names: &[&'a str],
) -> Result<HeldFiles, Halt<'a>>
    requires { All (λ name. F.lends shelf.old name) (map (λ n. n.now) names.now) }
    ensures never_falls { F.faults shelf.old ≤ F.faults shelf.new }
    ensures ok { IfOk result (λ held. AreHeld (F.told shelf.old) (held_by held) (map (λ n. n.now) names.now)) }
    ensures err { IfErr result (CannotHold (F.told shelf.old) (map (λ n. n.now) names.now)
        (Rose (F.faults shelf.old) (F.faults shelf.new))) }
{
    let mut held = HeldFiles::new(alloc);
    for place in 0..names.len() {
        let name = names[place];
        hold(alloc, shelf, &mut held, &names[..place], name)?;
    }
    Ok(held)
}
