// What is passed over: comments and `#include` lines.

ghost use Rattle.std.specs.Prelude.{◌≡◌, ◌≤◌, ◌<◌, length, nat_eq, codes, ◌||◌, ◌&&◌, IfSome, IsTrue};
ghost use Rattle.std.specs.List.{prefix_len, starts_with};
ghost use Rattle.c_tree.specs.Front.{in_line, closes, close_len, passes_line};

/// Whether everything up to the end of the line is passed over: `//` is at the front, or `#include` is and `fresh`,
/// whether only spaces and tabs stand before it on its line, holds.
pub fn passes_rest_of_line(fresh: bool, bytes: &[u8]) -> bool
    ensures { result ≡ passes_line fresh bytes.now }
{
    bytes.starts_with(b"//") || (fresh && bytes.starts_with(b"#include"))
}

/// How many bytes stand before the end of the line.
pub fn line_len(bytes: &[u8]) -> usize
    ensures size { result ≡ prefix_len in_line bytes.now }
    ensures within { result ≤ length bytes.now }
{
    bytes.iter().take_while(|b| **b != b'\n').count()
}

/// How many bytes there are up to the end of the first `*/`, if there is one.
pub fn close_at(bytes: &[u8]) -> Option<usize>
    ensures size { result ≡ close_len bytes.now }
    ensures within { IfSome result (λ n. n ≤ length bytes.now) }
{
    let mut next = 0;
    while next < bytes.len() {
        if begins_close(&bytes[next..]) {
            return Some(next + 2);
        }
        next += 1;
    }
    None
}

// Whether `*/` is at the front.
fn begins_close(bytes: &[u8]) -> bool
    ensures is { result ≡ closes bytes.now }
    ensures within { IsTrue result → 2 ≤ length bytes.now }
{
    match bytes {
        [b'*', b'/', ..] => true,
        _ => false,
    }
}
