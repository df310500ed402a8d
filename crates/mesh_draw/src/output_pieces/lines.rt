// Lines of an output.
ghost use Rattle.std.specs.Prelude.{◌≡◌, ◌<◌, ◌≤◌, IfSome, IfNone, length, take};
ghost use Rattle.mesh_draw.specs.Lines.{lines_in, AreLines};

/// How many LFs there are.
pub fn lines_in(bytes: &[u8]) -> u64
    ensures { result ≡ lines_in bytes.now }
{
    bytes.iter().filter(|byte| **byte == b'\n').count() as u64
}

/// How many bytes the first `count` lines have, with their LFs; none where there are fewer lines.
pub fn lines_len(bytes: &[u8], count: u64) -> Option<usize>
    ensures some { IfSome result (λ n. AreLines count (take n bytes.now)) }
    ensures within { IfSome result (λ n. n ≤ length bytes.now) }
    ensures none { IfNone result (lines_in bytes.now < count) }
{
    if count == 0 {
        return Some(0);
    }
    let mut left = count;
    for place in 0..bytes.len() {
        if bytes[place] == b'\n' {
            left -= 1;
            if left == 0 {
                return Some(place + 1);
            }
        }
    }
    None
}
