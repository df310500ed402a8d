// Lines of a source.
ghost use Rattle.std.specs.Prelude.{◌≡◌, option_map};
ghost use Rattle.explanations.specs.Carets.{line_at};

use crate::parts::part_at;

/// The line of this number, counted from 1, without its LF; none where the text has fewer lines. What stands behind the
/// last LF is a line too, also where that is nothing: so the end of a source that ends with an LF has a line. It takes
/// time linear in the text, and no memory.
pub fn line_at(text: &[u8], number: u64) -> Option<&[u8]>
    ensures { option_map (λ l. l.now) result ≡ line_at text.now number }
{
    if number == 0 {
        None
    } else {
        part_at(text, b'\n', number - 1)
    }
}
