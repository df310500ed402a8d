// What is wrong with a statement, and the first of it.

ghost use Rattle.std.specs.Prelude.{◌≡◌, None, Ok, Err};
ghost use Rattle.bound_program.specs.Refusals.{place, turn_number, number_of, is_before, earlier, least_from, found_in, found_over};
ghost use Rattle.bound_program.specs.Refusals.{found_if, refusal_of_first};

use crate::refusals::refusals::{BindRefusal, Counted};
use c_tree::Pos;

/// When in its statement something is judged: in the order of its tokens, save the value of a set's size, which comes
/// behind all of them, and the cells of the mesh, which come last.
#[derive(Clone, Copy, PartialEq, Eq, Debug)]
pub enum Turn {
    InOrder,
    SizeValue,
    MeshCells,
}

/// Something that is wrong with a statement, at the token of that number.
#[derive(Clone, Copy, PartialEq, Eq, Debug)]
pub struct Found {
    pub turn: Turn,
    pub token: usize,
    pub refusal: BindRefusal,
}

fn turn_number(turn: Turn) -> u8
    ensures { result ≡ turn_number turn }
{
    match turn {
        Turn::InOrder => 0,
        Turn::SizeValue => 1,
        Turn::MeshCells => 2,
    }
}

// The number of a refusal.
fn number_of(refusal: BindRefusal) -> u8
    ensures { result ≡ number_of refusal }
{
    match refusal {
        BindRefusal::UnknownSet { .. } => 1,
        BindRefusal::UnknownMap { .. } => 2,
        BindRefusal::UnknownDat { .. } => 3,
        BindRefusal::UnknownKernel { .. } => 4,
        BindRefusal::ArgCount { .. } => 5,
        BindRefusal::DimMismatch { .. } => 6,
        BindRefusal::TypeMismatch { .. } => 7,
        BindRefusal::SetMismatch { .. } => 8,
        BindRefusal::IndexRange { .. } => 9,
        BindRefusal::MapTarget { .. } => 10,
        BindRefusal::GlobalTwice { .. } => 11,
        BindRefusal::ReservedAccess { .. } => 12,
        BindRefusal::ControlNotStatic { .. } => 13,
        BindRefusal::TraceTooLong => 14,
        BindRefusal::Limit { .. } => 15,
        BindRefusal::DeclarationPlace { .. } => 16,
        BindRefusal::UnknownEntry { .. } => 17,
        BindRefusal::OutOfMemory => 18,
    }
}

// Whether g counts before f.
fn is_before(g: Found, f: Found) -> bool
    ensures { result ≡ is_before g f }
{
    let (a, b) = (turn_number(g.turn), turn_number(f.turn));
    a < b
        || (a == b
            && (g.token < f.token
                || (g.token == f.token && number_of(g.refusal) < number_of(f.refusal))))
}

/// Keeps the first of what was found so far and of this.
pub fn note(first: &mut Option<Found>, found: Found)
    ensures { first.new ≡ earlier first.old found }
{
    match *first {
        Some(other) if !is_before(found, other) => {}
        _ => *first = Some(found),
    }
}

/// Keeps the first of what was found so far and of this, where the test holds.
pub fn note_in(
    first: &mut Option<Found>,
    turn: Turn,
    test: bool,
    token: usize,
    refusal: BindRefusal,
)
    ensures { first.new ≡ least_from first.old (found_in turn test token refusal) }
{
    if test {
        note(
            first,
            Found {
                turn,
                token,
                refusal,
            },
        );
    }
}

/// Keeps the first of what was found so far and of this, where the test holds, in the order of the tokens.
pub fn note_if(first: &mut Option<Found>, test: bool, token: usize, refusal: BindRefusal)
    ensures { first.new ≡ least_from first.old (found_in Turn.InOrder test token refusal) }
{
    note_in(first, Turn::InOrder, test, token, refusal);
}

/// Keeps the first of what was found so far and of this, where a size is above its limit.
pub fn note_over(
    first: &mut Option<Found>,
    turn: Turn,
    limit: u64,
    size: u64,
    token: usize,
    counted: Counted,
)
    ensures { first.new ≡ least_from first.old (found_over turn limit size token counted) }
{
    note_in(
        first,
        turn,
        limit < size,
        token,
        BindRefusal::Limit { counted, size },
    );
}

/// The place of a token, by the places of all.
pub fn place(places: &[Pos], n: usize) -> Pos
    ensures { result ≡ place places.now n }
{
    if n < places.len() {
        places[n]
    } else {
        Pos { line: 1, column: 1 }
    }
}

/// Refuses by the first that was found.
pub fn refuse(first: Option<Found>) -> Result<(), BindRefusal>
    ensures { result ≡ refusal_of_first first }
{
    match first {
        None => Ok(()),
        Some(found) => Err(found.refusal),
    }
}
