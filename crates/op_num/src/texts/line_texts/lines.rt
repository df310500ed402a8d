// Lines of a text, one after another.
ghost use Rattle.std.specs.Prelude.{◌≡◌, ◌+◌, ◌++◌, ◌<◌, ◌≤◌, ◌^◌, ℕ, true, false, List, MatchOption, length};
ghost use Rattle.std.specs.List.{position_or_len};
ghost use Rattle.op_num.specs.CutLines.{is_lf, unread, HasNoLf, IsTaken, Takes};

use std::marker::Model;

/// The lines of a text: contracts see how many were taken, and the bytes that are to come.
#[derive(Debug, Drop)]
pub struct Lines<'a> {
    rest: &'a [u8],
    taken: u32,
}

impl<'a> Model for Lines<'a> {
    ghost use Rattle.std.specs.Prelude.{◌+◌, ◌<◌, ◌^◌, length};
    ghost use Rattle.op_num.specs.CutLines.{Unread};

    ghost Value = { Unread };

    ghost view = { λ l. record { taken = l.taken; rest = l.rest.now } };

    ghost invariant = { λ l. l.taken + length l.rest.now + 1 < 2 ^ 32 };
}

impl<'a> Lines<'a> {
    /// All lines of the text, which has fewer than 2 ^ 32 - 1 bytes, so that its lines can be counted.
    pub fn new(text: &'a [u8]) -> Lines<'a>
        requires { length text.now + 1 < 2 ^ 32 }
        ensures { result ≡ unread text.now }
    {
        Lines {
            rest: text,
            taken: 0,
        }
    }

    /// Takes the next line, and gives it without its LF; or none, where no LF is left. Bytes behind the last LF are no
    /// line. Then nothing is taken.
    pub fn next(&mut self) -> Option<&'a [u8]>
        ensures { MatchOption result (HasNoLf self.old.rest × (self.new ≡ self.old)) (λ l. Takes self.old self.new l.now) }
    {
        let len = line_len(self.rest);
        if len == self.rest.len() {
            return None;
        }
        let (line, rest) = self.rest.split_at(len);
        self.rest = rest.split_at(1).1;
        self.taken += 1;
        Some(line)
    }

    /// Takes these bytes as one line where they come next, and says whether they do; else nothing is taken. `line` has
    /// its LF.
    pub fn take(&mut self, line: &[u8]) -> bool
        requires { 0 < length line.now }
        ensures taken { result ≡ true → IsTaken self.old self.new line.now }
        ensures kept { result ≡ false → self.new ≡ self.old }
        ensures other { result ≡ false → (more : List ℕ) → self.old.rest ≡ line.now ++ more → ⊥ }
    {
        match self.rest.strip_prefix(line) {
            Some(rest) => {
                self.rest = rest;
                self.taken += 1;
                true
            }
            None => false,
        }
    }

    /// How many lines were taken: the number of the last one, counted from 1.
    pub fn taken(&self) -> u32
        ensures taken { result ≡ self.now.taken }
        ensures few { result + length self.now.rest + 1 < 2 ^ 32 }
    {
        self.taken
    }

    /// The bytes behind the lines that were taken.
    pub fn rest(&self) -> &'a [u8]
        ensures { result.now ≡ self.now.rest }
    {
        self.rest
    }
}

// How many bytes stand in front of the next LF, or of the end.
fn line_len(bytes: &[u8]) -> usize
    ensures size { result ≡ position_or_len is_lf bytes.now }
    ensures within { result ≤ length bytes.now }
{
    bytes.iter().take_while(|b| **b != b'\n').count()
}
