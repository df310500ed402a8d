// The constants that kernels read.

ghost use Rattle.std.specs.Prelude.{◌≡◌, map};
ghost use Rattle.bound_program.specs.Values.{var_of};
ghost use Rattle.bound_program.specs.Refusals.{least_from, first_of, Judges};
ghost use Rattle.main_declarations.specs.Variables.{glob_token, is_wrong_ampersand, ampersand_found, file_cells, constant_found};
ghost use Rattle.main_declarations.specs.Variables.{constant_decl_found, with_constant, after_constant, judged_constant};
ghost use Rattle.main_declarations.specs.Walks.{declared_of};

use crate::mesh_notes::{note_place, note_type};
use crate::names::{Cells, Declared, Meaning, Source};
use bound_program::Var;
use bound_program::refusals::{BindRefusal, Found, note_if, place};
use c_tree::{GlobalName, NumberLiteral, TextLiteral};
use op_num::Name;

/// The first token of a global.
pub fn glob_token(source: &Source<'_>, g: &GlobalName) -> usize
    ensures { result ≡ glob_token source.now.places.now g.now }
{
    let _source = source;
    match g.ampersand {
        None => g.name.at,
        Some(t) => t,
    }
}

// A `&` before an array, or none before a scalar.
fn is_wrong_ampersand(source: &Source<'_>, is_array: bool, ampersand: Option<usize>) -> bool
    ensures { result ≡ is_wrong_ampersand source.now.places.now is_array ampersand }
{
    let _source = source;
    if is_array {
        ampersand.is_some()
    } else {
        !ampersand.is_some()
    }
}

/// Notes a `&` too many or too few.
pub fn note_ampersand(
    source: &Source<'_>,
    first: &mut Option<Found>,
    is_array: bool,
    g: &GlobalName,
)
    ensures { first.new ≡ least_from first.old (ampersand_found source.now.places.now is_array g.now) }
{
    let token = glob_token(source, g);
    let at = place(source.places, token);
    let is_wrong = is_wrong_ampersand(source, is_array, g.ampersand);
    note_if(first, is_wrong, token, BindRefusal::TypeMismatch { at });
}

// The cells of a variable of the file.
fn file_cells(source: &Source<'_>, meaning: Option<Meaning>) -> Option<Cells>
    ensures { result ≡ file_cells source.now.places.now meaning }
{
    let _source = source;
    match meaning {
        Some(Meaning::Variable(cells)) => { if cells.of_file { Some(cells) } else { None } }
        Some(Meaning::Fixed(_, cells)) => { if cells.of_file { Some(cells) } else { None } }
        _ => None,
    }
}

// Notes what is wrong with the variable and the dim of a constant.
#[tactic(auto, using(bound_program::proofs::Public::least_append))]
fn note_constant(
    source: &Source<'_>,
    first: &mut Option<Found>,
    n: NumberLiteral,
    g: &GlobalName,
    cells: Option<Cells>,
)
    ensures { first.new ≡ least_from first.old (constant_found source.now.places.now n g.now cells) }
{
    let dim = n.value.unsigned_abs();
    let refusal = BindRefusal::DimMismatch {
        at: place(source.places, n.at),
    };
    match cells {
        None => {
            let at = place(source.places, g.name.at);
            note_if(first, true, g.name.at, BindRefusal::UnknownEntry { at });
            note_if(first, dim == 0, n.at, refusal);
        }
        Some(cells) => {
            note_ampersand(source, first, cells.is_array, g);
            note_if(first, !(dim == cells.count), n.at, refusal);
        }
    }
}

// The first of what is wrong with the declaration of a constant.
#[tactic(auto, using(bound_program::proofs::Public::first_of_three))]
fn first_in_constant(
    source: &Source<'_>,
    k: &Declared,
    is_nested: bool,
    t: usize,
    n: NumberLiteral,
    l: &TextLiteral,
    g: &GlobalName,
) -> Option<Found>
    ensures { result ≡ first_of (constant_decl_found source.now.places.now (declared_of k.now) is_nested t n l.now g.now) }
{
    let mut first = None;
    note_place(source, &mut first, k, is_nested, t);
    let cells = file_cells(source, k.names.means(&g.name.name));
    note_constant(source, &mut first, n, g, cells);
    note_type(source, &mut first, l);
    first
}

// The variable of this number has its first cell among the constants.
fn set_constant(source: &Source<'_>, vars: &mut Vec<Var>, var: usize, constant: Option<u32>)
    ensures { map var_of vars.new.items ≡ with_constant source.now.places.now var constant (map var_of vars.old.items) }
{
    let _source = source;
    if var < vars.len() {
        vars[var].constant = constant;
    }
}

fn with_constant(source: &Source<'_>, k: &mut Declared, name: &Name, cells: Option<Cells>)
    ensures { declared_of k.new ≡ after_constant source.now.places.now source.now.consts.now (declared_of k.old) name.now cells }
{
    if let Some(cells) = cells {
        let constant = source.consts.first_cell(name);
        set_constant(source, &mut k.vars, cells.var as usize, constant);
    }
}

/// `op_decl_const(n, l, g);`, its word at the token t.
pub fn judged_constant(
    source: &Source<'_>,
    k: &mut Declared,
    is_nested: bool,
    t: usize,
    n: NumberLiteral,
    l: &TextLiteral,
    g: &GlobalName,
) -> Result<(), BindRefusal>
    ensures { Judges result (declared_of k.new)
        (judged_constant source.now.places.now source.now.consts.now (declared_of k.old) is_nested t n l.now g.now) }
{
    let first = first_in_constant(source, k, is_nested, t, n, l, g);
    if let Some(found) = first {
        return Err(found.refusal);
    }
    let cells = file_cells(source, k.names.means(&g.name.name));
    with_constant(source, k, &g.name.name, cells);
    Ok(())
}
