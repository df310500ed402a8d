// Words of a line, one after another.
ghost use Rattle.std.specs.Prelude.{◌≡◌, ◌≤◌, [], ◌∷◌, MatchOption, length};
ghost use Rattle.std.specs.List.{position_or_len};
ghost use Rattle.op_num.specs.CutLines.{is_space, words};

use std::marker::Model;

/// The words of a line between single spaces, of which contracts see those to come.
#[derive(Debug, Drop)]
pub struct Words<'a> {
    rest: Option<&'a [u8]>,
}

impl<'a> Model for Words<'a> {
    ghost use Rattle.std.specs.Prelude.{ℕ, List};
    ghost use Rattle.op_num.specs.CutLines.{words_to_come};

    ghost Value = { List (List ℕ) };

    ghost view = { λ w. words_to_come w.rest };
}

impl<'a> Words<'a> {
    /// All words of the line: what stands before, between and behind its spaces.
    pub fn new(line: &'a [u8]) -> Words<'a>
        ensures { result ≡ words line.now }
    {
        Words { rest: Some(line) }
    }

    /// The next word, or none where all were taken.
    pub fn next(&mut self) -> Option<&'a [u8]>
        ensures { MatchOption result ((self.old ≡ []) × (self.new ≡ [])) (λ w. self.old ≡ w.now ∷ self.new) }
    {
        let rest = self.rest?;
        let len = word_len(rest);
        if len == rest.len() {
            self.rest = None;
            return Some(rest);
        }
        let (word, behind) = rest.split_at(len);
        self.rest = Some(behind.split_at(1).1);
        Some(word)
    }
}

// How many bytes stand in front of the next space, or of the end.
fn word_len(bytes: &[u8]) -> usize
    ensures size { result ≡ position_or_len is_space bytes.now }
    ensures within { result ≤ length bytes.now }
{
    bytes.iter().take_while(|b| **b != b' ').count()
}
