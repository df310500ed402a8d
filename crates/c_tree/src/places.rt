// Where the tokens of a tree stand.

ghost use Rattle.std.specs.Prelude.{◌≡◌, ℕ, List, length};
ghost use Rattle.std.specs.List.{All};
ghost use Rattle.c_tree.specs.Order.{AreInOrder};
ghost use Rattle.c_tree.specs.Places.{pos_of, first_token, first_token_of_global, IsBelow};
ghost use Rattle.c_tree.specs.Print.{program as printed};
ghost use Rattle.c_tree.specs.Reads.{Reads};
ghost use Rattle.c_tree.specs.Tree.{ProgramTree};
ghost use Rattle.c_tree.specs.View.{expr_of};

use crate::expressions::Expr;
use crate::hosts::GlobalName;
use crate::lexer::{Pos, tokens_in_order};
use crate::programs::Program;

/// The place of the token with this number, among the places of all. Line and column are 0 where there is no such
/// token.
pub fn pos_of(places: &[Pos], token: usize) -> Pos
    ensures { result ≡ pos_of places.now token }
{
    if token < places.len() {
        places[token]
    } else {
        Pos { line: 0, column: 0 }
    }
}

impl Program {
    /// The place of the token with this number. A tree that was read has one for each number that it keeps.
    pub fn pos(&self, token: usize) -> Pos
        ensures { result ≡ pos_of self.now.places.items token }
    {
        pos_of(&self.places, token)
    }
}

impl Expr {
    /// The number of the expression's first token.
    pub fn first_token(&self) -> usize
        ensures { result ≡ first_token (expr_of self.now) }
    {
        let mut first = self;
        loop {
            match first {
                Expr::Number(number) => return number.at,
                Expr::Name(name) => return name.at,
                Expr::Index { name, .. } => return name.at,
                Expr::Deref { at, .. } => return *at,
                Expr::Unary { at, .. } => return *at,
                Expr::Binary { left, .. } => first = left,
                Expr::Choice { condition, .. } => first = condition,
                Expr::Paren { at, .. } => return *at,
                Expr::Extremum { at, .. } => return *at,
                Expr::Absolute { at, .. } => return *at,
            }
        }
    }
}

impl GlobalName {
    /// The number of the global's first token: its `&`, or its name where it has none.
    pub fn first_token(&self) -> usize
        ensures { result ≡ first_token_of_global self.now }
    {
        match self.ampersand {
            Some(at) => at,
            None => self.name.at,
        }
    }
}

/// A law: each number that the tree of a source keeps is that of one of its places.
pub fn numbers_have_places()
    ensures { (bytes : List ℕ) (p : ProgramTree) → Reads bytes p → All (λ m. IsBelow (length p.places) m.number) (printed p) }
{}

/// A law: the places of a source grow with the numbers of its tokens.
pub fn places_grow()
    ensures { (bytes : List ℕ) (p : ProgramTree) → Reads bytes p → AreInOrder p.places }
{
    tokens_in_order();
}
