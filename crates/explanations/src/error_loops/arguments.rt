// The argument that a loop gives the parameter at a place.
ghost use Rattle.std.specs.Prelude.{◌≡◌, option_map};
ghost use Rattle.std.specs.List.{find, position};
ghost use Rattle.explanations.specs.Arguments.{stands_at, name_of, name_at, is_named, parameter_at, token_of};

use crate::Place;
use crate::error_loops::placed::place_of;
use c_tree::{Kind, LoopArg, Pos, Token};
use kernel_model::types::RKernel;

// Whether a token stands at this place.
fn stands_at(at: Place, token: &Token) -> bool
    ensures { result ≡ stands_at at token.now }
{
    u64::from(token.at.line) == at.line && u64::from(token.at.column) == at.column
}

// The token at a place, if one stands there.
fn token_at(tokens: &[Token], at: Place) -> Option<&Token>
    ensures { option_map (λ t. t.now) result ≡ find (stands_at at) tokens.now }
{
    tokens.iter().find(|token| stands_at(at, *token))
}

// The name that a token is, if it is one.
fn name_of(token: &Token) -> Option<&[u8]>
    ensures { option_map (λ n. n.now) result ≡ name_of token.now }
{
    match &token.kind {
        Kind::Name(name) => Some(name.bytes()),
        _ => None,
    }
}

// The name that stands at a place, if one does.
fn name_at(tokens: &[Token], at: Place) -> Option<&[u8]>
    ensures { option_map (λ n. n.now) result ≡ name_at tokens.now at }
{
    match token_at(tokens, at) {
        Some(token) => name_of(token),
        None => None,
    }
}

// Whether this name stands at a place.
fn is_named(tokens: &[Token], name: &[u8], at: Pos) -> bool
    ensures { result ≡ is_named tokens.now name.now at }
{
    match name_at(tokens, place_of(at)) {
        Some(other) => other == name,
        None => false,
    }
}

// The number of the first of these places where this name stands.
fn position_of(tokens: &[Token], name: &[u8], places: &[Pos]) -> Option<usize>
    ensures { result ≡ position (is_named tokens.now name.now) places.now }
{
    places
        .iter()
        .position(|place| is_named(tokens, name, *place))
}

/// The number of the kernel's parameter, from 0, whose name stands at this place; none where no such name does.
pub fn parameter_at(tokens: &[Token], kernel: &RKernel, at: Place) -> Option<usize>
    ensures { result ≡ parameter_at tokens.now kernel.now at }
{
    match name_at(tokens, at) {
        Some(name) => position_of(tokens, name, kernel.body.param_places.as_slice()),
        None => None,
    }
}

/// The number of the first token of an argument.
pub fn token_of(arg: &LoopArg) -> usize
    ensures { result ≡ token_of arg.now }
{
    match arg {
        LoopArg::Dat { at, .. } | LoopArg::Global { at, .. } => *at,
    }
}
