// The sizes that a line of a limit tells.
ghost use Rattle.std.specs.Prelude.{◌≡◌, ◌++◌, codes, option_map, OnOk};
ghost use Rattle.explanations.specs.Words.{line_words, tells_limit};
ghost use Rattle.explanations.specs.Explanation.{shown_two, sizes_of, shown_sizes};

use crate::parts::part_at;
use crate::places::without_lf;
use op_num::OutOfMemory;

// Whether a line is one of a limit.
fn tells_limit(line: &[u8]) -> bool
    ensures { result ≡ tells_limit line.now }
{
    line.starts_with(b"op2: limit ")
}

// The sizes of a limit, if there are two.
fn put_two(out: &mut Vec<u8>, most: Option<&[u8]>, size: Option<&[u8]>) -> Result<(), OutOfMemory>
    ensures { OnOk result (out.new.items ≡ out.old.items
        ++ shown_two (option_map (λ m. m.now) most.entry) (option_map (λ s. s.now) size.entry)) }
{
    let (Some(most), Some(size)) = (most, size) else {
        return Ok(());
    };
    out.extend_from_slice(b"here ")?;
    out.extend_from_slice(size)?;
    out.extend_from_slice(b", at most ")?;
    out.extend_from_slice(most)?;
    out.extend_from_slice(b"\n")
}

// The sizes of a line by its words.
fn put_sizes_of(out: &mut Vec<u8>, line: &[u8]) -> Result<(), OutOfMemory>
    ensures { OnOk result (out.new.items ≡ out.old.items ++ sizes_of (line_words line.now)) }
{
    let words = without_lf(line);
    put_two(out, part_at(words, b' ', 3), part_at(words, b' ', 4))
}

/// Appends the sizes that a line tells, if it is one of a limit.
pub fn put_sizes(out: &mut Vec<u8>, line: &[u8]) -> Result<(), OutOfMemory>
    ensures { OnOk result (out.new.items ≡ out.old.items ++ shown_sizes line.now) }
{
    if tells_limit(line) {
        put_sizes_of(out, line)
    } else {
        Ok(())
    }
}
