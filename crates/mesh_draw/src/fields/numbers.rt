// Lines of numbers.
ghost use Rattle.std.specs.Prelude.{◌≡◌, ◌+◌, ◌<◌, ◌^◌, ◌↔◌, true, length, IfSome, IfNone};
ghost use Rattle.mesh_draw.specs.Numbers.{HasNumbers, AreNumberLines, IsOther};

use op_num::read_i32;
use op_num::texts::line_texts::{Lines, Words, lines_are_one};

// Whether a line has so many numbers between single spaces.
fn has_numbers(line: &[u8], dim: u32) -> bool
    ensures { (result ≡ true) ↔ HasNumbers dim line.now }
{
    let mut words = Words::new(line);
    for _ in 0..dim {
        let Some(word) = words.next() else {
            return false;
        };
        if read_i32(word).is_err() {
            return false;
        }
    }
    words.next().is_none()
}

/// How many lines of so many numbers stand before the first other one; none where the text has such lines alone.
pub fn other_line(text: &[u8], dim: u32) -> Option<u32>
    requires { length text.now + 1 < 2 ^ 32 }
    ensures some { IfSome result (IsOther dim text.now) }
    ensures none { IfNone result (AreNumberLines dim text.now) }
{
    lines_are_one();
    let mut lines = Lines::new(text);
    while !lines.rest().is_empty() {
        let before = lines.taken();
        let Some(line) = lines.next() else {
            return Some(before);
        };
        if !has_numbers(line, dim) {
            return Some(before);
        }
    }
    None
}
