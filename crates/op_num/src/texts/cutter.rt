// Tokens: runs of bytes other than space, tab, CR and LF.
ghost use Rattle.std.specs.Prelude.{◌≡◌, ◌+◌, ◌<◌, ◌≤◌, ◌^◌, length, None, is_some, IsTrue};
ghost use Rattle.std.specs.List.{prefix_len};
ghost use Rattle.op_num.specs.Cut.{blank, dark, words, first_of, rest_of, uncut, IsDark};
ghost use Rattle.op_num.specs.Short.{short_of};

use crate::texts::short::short_integer;
use std::marker::Model;

/// A token, and the line that it stands on, from 1.
#[derive(Debug, Drop)]
pub struct Token<'a> {
    text: &'a [u8],
    line: u32,
}

impl<'a> Model for Token<'a> {
    ghost use Rattle.op_num.specs.Cut.{Word};

    ghost Value = { Word };

    ghost view = { λ t. record { text = t.text.now; line = t.line } };
}

impl<'a> Token<'a> {
    /// The bytes of the token.
    pub fn text(&self) -> &'a [u8]
        ensures { result.now ≡ self.now.text }
    {
        self.text
    }

    /// The line that the token stands on, from 1; lines are counted by LF.
    pub fn line(&self) -> u32
        ensures { result ≡ self.now.line }
    {
        self.line
    }
}

/// The tokens of a text, of which contracts see those to come, and the line of the last that came (1 before any).
#[derive(Debug, Drop)]
pub struct Tokens<'a> {
    rest: &'a [u8],
    line: u32,
    last: u32,
}

impl<'a> Model for Tokens<'a> {
    ghost use Rattle.std.specs.Prelude.{◌+◌, ◌<◌, ◌^◌, length};
    ghost use Rattle.op_num.specs.Cut.{Uncut, words};

    ghost Value = { Uncut };

    ghost view = { λ t. record { last = t.last; words = words t.line t.rest.now } };

    ghost invariant = { λ t. t.line + length t.rest.now < 2 ^ 32 };
}

impl<'a> Tokens<'a> {
    /// All tokens of the text, which has fewer than 2 ^ 32 - 1 bytes, so that its lines can be counted.
    pub fn new(text: &'a [u8]) -> Tokens<'a>
        requires { length text.now + 1 < 2 ^ 32 }
        ensures { result ≡ uncut text.now }
    {
        Tokens {
            rest: text,
            line: 1,
            last: 1,
        }
    }

    /// The next token, or none at the end of the text.
    pub fn next(&mut self) -> Option<Token<'a>>
        ensures token { result ≡ first_of self.old }
        ensures rest { self.new ≡ rest_of self.old }
    {
        let (rest, line) = skip_blanks(self.rest, self.line);
        let len = token_len(rest);
        self.line = line;
        if len == 0 {
            self.rest = rest;
            return None;
        }
        let (text, rest) = rest.split_at(len);
        self.rest = rest;
        self.last = line;
        Some(Token { text, line })
    }

    /// The integer that the next token spells, where that has at most nine bytes; the token has come then. Else none,
    /// and the token is still to come.
    pub fn next_short(&mut self) -> Option<i32>
        ensures value { result ≡ short_of (first_of self.old) }
        ensures some { IsTrue (is_some result) → self.new ≡ rest_of self.old }
        ensures none { result ≡ None → self.new ≡ self.old }
    {
        let (rest, line) = skip_blanks(self.rest, self.line);
        let (value, len) = short_integer(rest)?;
        self.rest = rest.split_at(len).1;
        self.line = line;
        self.last = line;
        Some(value)
    }

    /// The line of the last token that came, or 1 where none came.
    pub fn last(&self) -> u32
        ensures { result ≡ self.now.last }
    {
        self.last
    }
}

// Whether a byte stands between tokens.
pub fn is_blank(byte: u8) -> bool
    ensures { result ≡ blank byte }
{
    byte == b' ' || byte == b'\t' || byte == b'\r' || byte == b'\n'
}

// What stands behind the blanks at the front, and its line.
fn skip_blanks(bytes: &[u8], line: u32) -> (&[u8], u32)
    requires { line + length bytes.now < 2 ^ 32 }
    ensures words { words line bytes.now ≡ words result.1 result.0.now }
    ensures dark { IsDark result.0.now }
    ensures line { result.1 + length result.0.now ≤ line + length bytes.now }
{
    let mut at = line;
    for (i, byte) in bytes.iter().enumerate() {
        if !is_blank(*byte) {
            return (bytes.split_at(i).1, at);
        }
        if *byte == b'\n' {
            at += 1;
        }
    }
    (bytes.split_at(bytes.len()).1, at)
}

// How many bytes up to the next blank.
fn token_len(bytes: &[u8]) -> usize
    ensures size { result ≡ prefix_len dark bytes.now }
    ensures within { result ≤ length bytes.now }
{
    bytes.iter().take_while(|b| !is_blank(**b)).count()
}
