// Heads of programs: the items before a cut, and those that print the state there.

ghost use Rattle.std.specs.Prelude.{◌≡◌, ◌<◌, ◌+◌, ◌^◌, ◌++◌, ◌∷◌, [], ℕ, List, length, map, codes, IfOk, OnOk, IfErr, IsTrue, ◌↔◌};
ghost use Rattle.std.specs.Fmt.{decimal};
ghost use Rattle.kernel_model.specs.View.{rexpr_of, Scalar};
ghost use Rattle.mesh_decl.specs.Mesh.{dat_count};
ghost use Rattle.bound_program.specs.Values.{BoundValue, Host, act_of, closed_act, item_of, var_of, bound_of};
ghost use Rattle.bound_program.specs.Fits.{Fits};
ghost use Rattle.run_model.specs.Windows.{numbers};
ghost use Rattle.checkpoint.specs.declared.states.HeadRefusal.TheVariants.{Item as NoCut};
ghost use Rattle.checkpoint.specs.Cut.{CanCut, places, says, says_var, says_vars, says_dat, says_state, head as head_of};

use crate::laws::heads_fit;
use crate::states::HeadRefusal;
use bound_program::{Act, Bound, Item, Text, ToldAct, Var};
use kernel_model::types::RExpr;
use mesh_decl::Mesh;
use op_num::{OutOfMemory, put_u64};
use std::alloc::{AllocError, Global};

/// Whether a program is cut before the item of this number.
pub fn can_cut(bound: &Bound, item: u32) -> bool
    ensures { IsTrue result ↔ CanCut (bound_of bound.now) item }
{
    let item = item as usize;
    if item < bound.trace.len() {
        !matches!(&bound.trace[item], Item::Reduce { .. })
    } else {
        item == bound.trace.len()
    }
}

// The item of a statement without names that are told.
fn host(alloc: Global, act: Act) -> Result<Item, OutOfMemory>
    ensures { IfOk result (λ i. item_of i ≡ Host (closed_act [] (act_of act))) }
{
    let act = ToldAct::new(alloc, act)?;
    Ok(Item::Host { act })
}

// `op_printf` of this text.
fn says(alloc: Global, text: Vec<u8>) -> Result<Item, OutOfMemory>
    ensures { IfOk result (λ i. item_of i ≡ says text.items) }
{
    let text = Text::new(text);
    let values = Vec::new(alloc);
    host(alloc, Act::Line { text, values })
}

// The first lines.
fn says_item(alloc: Global, item: u32) -> Result<Item, OutOfMemory>
    ensures { IfOk result (λ i. item_of i ≡ says (codes "\nop2state 1\nitem " ++ decimal item ++ codes "\n")) }
{
    let mut text = Vec::new(alloc);
    text.extend_from_slice(b"\nop2state 1\nitem ")?;
    put_u64(&mut text, u64::from(item))?;
    text.push(b'\n')?;
    says(alloc, text)
}

// Puts `%d` so many times, between single spaces, and LF.
fn put_places(text: &mut Vec<u8>, count: usize) -> Result<(), OutOfMemory>
    ensures { (cells : List ℕ) → length cells ≡ count → OnOk result (text.new.items ≡ text.old.items ++ places cells) }
{
    for i in 0..count {
        if i != 0 {
            text.push(b' ')?;
        }
        text.extend_from_slice(b"%d")?;
    }
    text.push(b'\n')?;
    Ok(())
}

// The text of a variable: its number, how many cells it has, and a place for each.
fn var_text(alloc: Global, number: u64, count: usize) -> Result<Vec<u8>, OutOfMemory>
    ensures { (cells : List ℕ) → length cells ≡ count → IfOk result (λ t. t.items ≡
        codes "var " ++ decimal number ++ codes " " ++ decimal (length cells) ++ codes "\n" ++ places cells) }
{
    let mut text = Vec::new(alloc);
    text.extend_from_slice(b"var ")?;
    put_u64(&mut text, number)?;
    text.push(b' ')?;
    put_u64(&mut text, count as u64)?;
    text.push(b'\n')?;
    put_places(&mut text, count)?;
    Ok(text)
}

// The cells of a variable among the cells of all.
fn scalars(alloc: Global, from: usize, count: usize) -> Result<Vec<RExpr>, OutOfMemory>
    requires { from + count < 2 ^ 64 }
    ensures { IfOk result (λ es. map rexpr_of es.items ≡ map Scalar (map (λ i. from + i) (numbers count))) }
{
    let mut cells = Vec::with_capacity(alloc, count)?;
    for i in 0..count {
        let Ok(cell) = u32::try_from(from + i) else {
            return Err(AllocError);
        };
        cells.push(RExpr::Scalar(cell))?;
    }
    Ok(cells)
}

// A variable.
fn says_var(alloc: Global, number: u64, from: usize, count: usize) -> Result<Item, OutOfMemory>
    requires { from + count < 2 ^ 64 }
    ensures { IfOk result (λ i. item_of i ≡ says_var number (map (λ i. from + i) (numbers count))) }
{
    let text = Text::new(var_text(alloc, number, count)?);
    let values = scalars(alloc, from, count)?;
    host(alloc, Act::Line { text, values })
}

// Appends the variables that aren't `const`.
fn say_vars(alloc: Global, vars: &[Var], trace: &mut Vec<Item>) -> Result<(), OutOfMemory>
    ensures { OnOk result (map item_of trace.new.items ≡ map item_of trace.old.items ++ says_vars 0 0 (map var_of vars.now)) }
{
    let mut number = 0u64;
    let mut from = 0usize;
    for var in vars {
        let count = var.start.as_slice().len();
        let Some(past) = from.checked_add(count) else {
            return Err(AllocError);
        };
        if !var.is_const {
            trace.push(says_var(alloc, number, from, count)?)?;
            number += 1;
        }
        from = past;
    }
    Ok(())
}

// A dat, as `op_print_dat_to_txtfile` prints it.
fn says_dat(alloc: Global, dat: u32) -> Result<Item, OutOfMemory>
    ensures { IfOk result (λ i. item_of i ≡ says_dat dat) }
{
    let mut file = Vec::new(alloc);
    file.extend_from_slice(b"dat")?;
    let file = Text::new(file);
    host(alloc, Act::Print { dat, file })
}

// Appends the dats.
fn say_dats(alloc: Global, mesh: &Mesh, trace: &mut Vec<Item>) -> Result<(), OutOfMemory>
    ensures { OnOk result (map item_of trace.new.items ≡ map item_of trace.old.items ++ map says_dat (numbers (dat_count mesh.now))) }
{
    let count = mesh.dat_count();
    for dat in 0..count {
        trace.push(says_dat(alloc, dat)?)?;
    }
    Ok(())
}

// Appends the last line.
fn say_done(alloc: Global, trace: &mut Vec<Item>) -> Result<(), OutOfMemory>
    ensures { OnOk result (map item_of trace.new.items ≡ map item_of trace.old.items ++ says (codes "done\n") ∷ []) }
{
    let mut text = Vec::new(alloc);
    text.extend_from_slice(b"done\n")?;
    trace.push(says(alloc, text)?)?;
    Ok(())
}

// Appends what prints the state before an item.
fn say_state(
    alloc: Global,
    mesh: &Mesh,
    vars: &[Var],
    trace: &mut Vec<Item>,
    item: u32,
) -> Result<(), OutOfMemory>
    ensures { (b : BoundValue) → b.mesh ≡ mesh.now → b.vars ≡ map var_of vars.now
        → OnOk result (map item_of trace.new.items ≡ map item_of trace.old.items ++ says_state b item) }
{
    trace.push(says_item(alloc, item)?)?;
    say_vars(alloc, vars, trace)?;
    say_dats(alloc, mesh, trace)?;
    say_done(alloc, trace)?;
    Ok(())
}

/// The head of a program: its items before `item`, which print what they print, and then those that print the state
/// there. A program is cut before each of its items but the merging of what a loop reduces, and behind its last one.
///
/// # Errors
/// `HeadRefusal::Item` exactly where the program isn't cut there. Want of memory stands also for 2^32 items, or 2^32
/// cells of variables. `bound` is dropped then.
pub fn head(alloc: Global, bound: Bound, item: u32) -> Result<Bound, HeadRefusal>
    ensures head { IfOk result (λ h. bound_of h ≡ head_of (bound_of bound) item) }
    ensures cut { IfOk result (λ h. CanCut (bound_of bound) item) }
    ensures no_cut { IfErr result (λ e. e ≡ NoCut → CanCut (bound_of bound) item → ⊥) }
    // What is cut fits, where the program does.
    ensures fits { Fits (bound_of bound) → IfOk result (λ h. Fits (bound_of h)) }
{
    heads_fit();
    if !can_cut(&bound, item) {
        return Err(HeadRefusal::Item);
    }
    let mut head = bound;
    head.trace.truncate(item as usize);
    say_state(alloc, &head.mesh, &head.vars, &mut head.trace, item)?;
    if head.trace.len() >= 4294967296 {
        return Err(HeadRefusal::OutOfMemory);
    }
    Ok(head)
}
