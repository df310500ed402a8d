// What is printed of a text and its values (`op_printf` of the OP2 C API, with `%d` and `%%` of ISO C's `printf`).
ghost use Rattle.std.specs.Prelude.{◌≡◌, ◌<◌, ◌≤◌, ◌++◌, ℤ, List, length, drop, OnOk, OnErr};
ghost use Rattle.mesh_decl.specs.Printed.{printed_line, shown};
ghost use Rattle.run_model.specs.Grows.{Grows};
ghost use Rattle.run_model.specs.Pieces.{begins, piece_text, piece_len, piece_values};

use op_num::{OutOfMemory, Text, put_i32};

/// Appends what `op_printf` prints of the text: each `%d` is the next of the values, and each `%%` a `%`. A bound
/// program has as many values as `%d`; where values are wanting, a `%d` prints nothing.
///
/// Want of memory leaves `out` as it was.
pub fn print_line(out: &mut Vec<u8>, text: &Text, values: &[i32]) -> Result<(), OutOfMemory>
    ensures ok { OnOk result (out.new.items ≡ out.old.items ++ printed_line text.now values.now) }
    ensures err { OnErr result (out.new.items ≡ out.old.items) }
{
    let before = out.len();
    let printed = put_line(out, text.bytes(), values);
    if printed.is_err() {
        out.truncate(before);
    }
    printed
}

// The bytes of a line, or a front of them.
#[tactic(auto, using(crate::proofs::gather::Pieces::line_ends))]
fn put_line(out: &mut Vec<u8>, text: &[u8], values: &[i32]) -> Result<(), OutOfMemory>
    ensures ok { OnOk result (out.new.items ≡ out.old.items ++ printed_line text.now values.now) }
    ensures grows { Grows out.old.items out.new.items }
{
    let mut rest = text;
    let mut left = values;
    while !rest.is_empty() {
        let piece = first_piece(rest);
        put_piece(out, piece, left)?;
        left = values_behind(piece, left);
        rest = &rest[length_of(piece, rest)..];
    }
    Ok(())
}

// A piece of a text: `%d`, `%%`, or any other byte.
#[derive(Clone, Copy)]
enum Piece {
    Value,
    Percent,
    Byte(u8),
}

// The first piece of a text.
#[tactic(auto, using(crate::proofs::gather::Pieces::value_first, crate::proofs::gather::Pieces::percent_first, crate::proofs::gather::Pieces::byte_first))]
fn first_piece(text: &[u8]) -> Piece
    requires { 0 < length text.now }
    ensures text { (zs : List ℤ) → printed_line text.now zs
        ≡ piece_text result zs ++ printed_line (drop (piece_len result) text.now) (drop (piece_values result) zs) }
    ensures within { piece_len result ≤ length text.now }
{
    if begins(text, b'd') {
        Piece::Value
    } else if begins(text, b'%') {
        Piece::Percent
    } else {
        Piece::Byte(text[0])
    }
}

// Whether the text begins with `%` and that byte.
fn begins(text: &[u8], byte: u8) -> bool
    ensures { result ≡ begins byte text.now }
{
    match text {
        [first, second, ..] => *first == b'%' && *second == byte,
        _ => false,
    }
}

// How many bytes of the text it is.
fn length_of(piece: Piece, text: &[u8]) -> usize
    requires { piece_len piece ≤ length text.now }
    ensures { result ≡ piece_len piece }
{
    let _text = text;
    match piece {
        Piece::Value => 2,
        Piece::Percent => 2,
        Piece::Byte(_) => 1,
    }
}

// Appends what a piece prints, where these values are left.
fn put_piece(out: &mut Vec<u8>, piece: Piece, values: &[i32]) -> Result<(), OutOfMemory>
    ensures ok { OnOk result (out.new.items ≡ out.old.items ++ piece_text piece values.now) }
    ensures err { OnErr result (out.new.items ≡ out.old.items) }
{
    match piece {
        Piece::Value => put_next(out, values),
        Piece::Percent => out.extend_from_slice(b"%"),
        Piece::Byte(byte) => out.extend_from_slice(&[byte]),
    }
}

// The next value, where there is one.
fn put_next(out: &mut Vec<u8>, values: &[i32]) -> Result<(), OutOfMemory>
    ensures ok { OnOk result (out.new.items ≡ out.old.items ++ shown values.now) }
    ensures err { OnErr result (out.new.items ≡ out.old.items) }
{
    match values {
        [] => Ok(()),
        [first, ..] => put_i32(out, *first),
    }
}

// The values behind a piece.
fn values_behind(piece: Piece, values: &[i32]) -> &[i32]
    ensures { result.now ≡ drop (piece_values piece) values.now }
{
    match piece {
        Piece::Value => without_first(values),
        Piece::Percent | Piece::Byte(_) => values,
    }
}

// The values after the next.
fn without_first(values: &[i32]) -> &[i32]
    ensures { result.now ≡ drop 1 values.now }
{
    match values {
        [] => values,
        [_, more @ ..] => more,
    }
}
