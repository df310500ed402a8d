// Which items of a program run, as it is asked for.

ghost use Rattle.std.specs.Prelude.{◌≡◌, ◌≤◌, ◌↔◌, ℕ, List, All, length, Ok, Err, IfOk, IfErr, OnOk};
ghost use Rattle.op_outside.specs.Outside.{Rose};
ghost use Rattle.job_inputs.specs.Readings.{AreNext, HaveCome, Finds};
ghost use Rattle.bound_program.specs.Values.{bound_of};
ghost use Rattle.bound_program.specs.Fits.{Fits};
ghost use Rattle.command_words.specs.declared.answer_lines.limits.TheConstants.{STATE_BYTES};
ghost use Rattle.command_words.specs.Words.{names_before};
ghost use Rattle.command_words.specs.Values.{stretch_in};
ghost use Rattle.answers.specs.Judgements.{AccessesAre, BeforeItem, FromText, CutOf, ChosenIs};
ghost use Rattle.command_words.specs.Halts.{StopsWhere};
ghost use Rattle.job_inputs.specs.Inputs.{cut_by, SaysState, chosen_of};
ghost use Rattle.job_inputs.specs.Chains.{HaltsOver};

use crate::files::file_of;
use crate::kept_files::Kept;
use bound_program::Bound;
use checkpoint::state_texts::{StateRefusal, read_state};
use checkpoint::{HeadRefusal, head, tail, tails_obey};
use command_words::Stretch;
use command_words::answer_lines::{Failure, Halt, Limit, Refusal};
use op_outside::Shelf;
use std::alloc::Global;

/// The program whose items run, of a program that is bound.
#[derive(Drop)]
pub struct Chosen {
    /// The whole program, or its head before an item, or its tail from a state on.
    pub bound: Bound,
    /// The number that its first item has in the whole program.
    pub first: u32,
}

/// What the file holds that tells a state, which is the next in `kept` then; nothing where none does.
///
/// Refused are a file that isn't there, and one with more than `STATE_BYTES` bytes. A file that could not be read is a
/// failure, where the shelf's count of faults rose, and so is want of memory.
pub fn state_text_of<'a, F: Shelf>(
    alloc: Global,
    shelf: &mut F,
    kept: &mut Kept<'a>,
    stretch: Stretch<'a>,
) -> Result<Vec<u8>, Halt<'a>>
    requires lent { All (λ name. F.lends shelf.old name) (names_before (stretch_in stretch)) }
    requires next { AreNext (names_before (stretch_in stretch)) kept.old }
    ensures told { F.told shelf.new ≡ F.told shelf.old }
    ensures lends { (n : List ℕ) → F.lends shelf.old n ↔ F.lends shelf.new n }
    ensures calm { OnOk result (F.faults shelf.new ≡ F.faults shelf.old) }
    ensures come { OnOk result (HaveCome (names_before (stretch_in stretch.entry)) kept.old kept.new) }
    ensures read { IfOk result (λ v. Finds (F.told shelf.old) kept.old kept.new
        (λ files. CutOf (stretch_in stretch.entry) files (Ok (cut_by (stretch_in stretch.entry) v.items)))) }
    ensures fits { IfOk result (λ v. length v.items ≤ STATE_BYTES) }
    ensures err { IfErr result (HaltsOver (F.told shelf.old) kept.old (λ files r. CutOf (stretch_in stretch.entry) files (Err r))
        (Rose (F.faults shelf.old) (F.faults shelf.new))) }
{
    match stretch {
        Stretch::Whole => Ok(Vec::new(alloc)),
        Stretch::Before { .. } => Ok(Vec::new(alloc)),
        Stretch::From(name) => file_of(alloc, shelf, kept, name, Limit::StateBytes),
    }
}

// The head of a program before an item.
fn head_before<'a>(alloc: Global, bound: Bound, item: u32) -> Result<Chosen, Halt<'a>>
    requires fits { Fits (bound_of bound) }
    requires obeyed { AccessesAre (bound_of bound) (Ok tt) }
    ensures ok { IfOk result (λ c. ChosenIs (BeforeItem item) (bound_of bound) (Ok (chosen_of c))) }
    ensures fits { IfOk result (λ c. Fits (bound_of c.bound)) }
    ensures obeyed { IfOk result (λ c. AccessesAre (bound_of c.bound) (Ok tt)) }
    ensures err { IfErr result (StopsWhere (λ r. ChosenIs (BeforeItem item) (bound_of bound) (Err r))) }
{
    match head(alloc, bound, item) {
        Ok(bound) => Ok(Chosen { bound, first: 0 }),
        Err(HeadRefusal::Item) => Err(Halt::Refused(Refusal::BadCut { item })),
        Err(HeadRefusal::OutOfMemory) => Err(Halt::Failed(Failure::OutOfMemory)),
    }
}

// A text that tells no state.
fn untold<'a>(refusal: StateRefusal) -> Halt<'a>
    ensures { StopsWhere (SaysState refusal) result }
{
    let (number, line) = match refusal {
        StateRefusal::Header { line } => (1, line),
        StateRefusal::Item { line } => (2, line),
        StateRefusal::Shape { line } => (3, line),
        StateRefusal::Value { line } => (4, line),
        StateRefusal::End { line } => (5, line),
        StateRefusal::OutOfMemory => return Halt::Failed(Failure::OutOfMemory),
    };
    Halt::Refused(Refusal::BadState { number, line })
}

// The tail of a program from the state on that a text tells.
fn tail_from<'a>(alloc: Global, bound: Bound, text: &[u8]) -> Result<Chosen, Halt<'a>>
    requires fits { Fits (bound_of bound) }
    requires obeyed { AccessesAre (bound_of bound) (Ok tt) }
    requires few { length text.now ≤ STATE_BYTES }
    ensures ok { IfOk result (λ c. ChosenIs (FromText text.now) (bound_of bound) (Ok (chosen_of c))) }
    ensures fits { IfOk result (λ c. Fits (bound_of c.bound)) }
    ensures obeyed { IfOk result (λ c. AccessesAre (bound_of c.bound) (Ok tt)) }
    ensures err { IfErr result (StopsWhere (λ r. ChosenIs (FromText text.now) (bound_of bound) (Err r))) }
{
    tails_obey();
    let state = match read_state(alloc, text, &bound) {
        Ok(state) => state,
        Err(refusal) => return Err(untold(refusal)),
    };
    let first = state.item;
    let bound = tail(alloc, bound, state)?;
    Ok(Chosen { bound, first })
}

/// The program whose items run, of a program that fits and keeps to its accesses: the whole, or its head before an
/// item, or its tail from the state on that `text` tells. Where no file tells a state, `text` isn't looked at; it has
/// at most `STATE_BYTES` bytes.
///
/// Refused are an item before which the program can't be cut, and a text that tells no state of the program, at its
/// first line that isn't as awaited. Want of memory is the one failure.
pub fn chosen_by<'a>(
    alloc: Global,
    bound: Bound,
    stretch: Stretch<'_>,
    text: &[u8],
) -> Result<Chosen, Halt<'a>>
    requires fits { Fits (bound_of bound) }
    requires obeyed { AccessesAre (bound_of bound) (Ok tt) }
    requires few { length text.now ≤ STATE_BYTES }
    ensures ok { IfOk result (λ c. ChosenIs (cut_by (stretch_in stretch.entry) text.now) (bound_of bound) (Ok (chosen_of c))) }
    ensures fits { IfOk result (λ c. Fits (bound_of c.bound)) }
    ensures obeyed { IfOk result (λ c. AccessesAre (bound_of c.bound) (Ok tt)) }
    ensures err { IfErr result (StopsWhere (λ r. ChosenIs (cut_by (stretch_in stretch.entry) text.now) (bound_of bound) (Err r))) }
{
    match stretch {
        Stretch::Whole => Ok(Chosen { bound, first: 0 }),
        Stretch::Before { item } => head_before(alloc, bound, item),
        Stretch::From(_) => tail_from(alloc, bound, text),
    }
}
