// The names of stubs, and the kernels that they are of.

ghost use Rattle.std.specs.Prelude.{◌≡◌, option_map, find, is_some};
ghost use Rattle.std.specs.List.{list_all, list_any};
ghost use Rattle.std.specs.Str.{bytes_eq};
ghost use Rattle.c_tree.specs.declared.lexer.spelling.TheConstants.{WORDS};
ghost use Rattle.c_tree.specs.Spelling.{letter, part, word_spelling};
ghost use Rattle.op_translate.specs.Translation.{begins, is_name, kernel_in};

// The reserved words, none of which is a name.
const RESERVED: [&[u8]; 38] = [
    b"extern",
    b"const",
    b"int",
    b"void",
    b"static",
    b"inline",
    b"char",
    b"if",
    b"else",
    b"for",
    b"return",
    b"main",
    b"argc",
    b"argv",
    b"op_set",
    b"op_map",
    b"op_dat",
    b"op_init",
    b"op_exit",
    b"op_decl_set",
    b"op_decl_map",
    b"op_decl_dat",
    b"op_decl_const",
    b"op_par_loop",
    b"op_arg_dat",
    b"op_arg_gbl",
    b"op_printf",
    b"op_print_dat_to_txtfile",
    b"OP_ID",
    b"OP_READ",
    b"OP_WRITE",
    b"OP_RW",
    b"OP_INC",
    b"OP_MIN",
    b"OP_MAX",
    b"MIN",
    b"MAX",
    b"ABS",
];

/// Whether the name begins as the names of stubs do, with `op_par_loop_`.
pub fn is_stub(name: &[u8]) -> bool
    ensures { result ≡ begins name.now }
{
    name.starts_with(b"op_par_loop_")
}

/// The kernel whose stub has this name, if it is one.
pub fn kernel_of(name: &[u8]) -> Option<&[u8]>
    ensures { option_map (λ x. x.now) result ≡ kernel_in name.now }
{
    let kernel = name.strip_prefix(b"op_par_loop_")?;
    if is_name(kernel) { Some(kernel) } else { None }
}

// Whether the bytes are a name.
fn is_name(bytes: &[u8]) -> bool
    ensures { result ≡ is_name bytes.now }
{
    match bytes {
        [first, rest @ ..] => is_letter(*first) && all_parts(rest) && !is_reserved(bytes),
        [] => false,
    }
}

// Whether the byte is a letter or `_`.
fn is_letter(byte: u8) -> bool
    ensures { result ≡ letter byte }
{
    (b'a' <= byte && byte <= b'z') || (b'A' <= byte && byte <= b'Z') || byte == b'_'
}

// Whether the bytes are letters, digits and `_`.
fn all_parts(bytes: &[u8]) -> bool
    ensures { result ≡ list_all part bytes.now }
{
    bytes.iter().all(|byte| is_letter(*byte) || (b'0' <= *byte && *byte <= b'9'))
}

// Whether the bytes are a reserved word.
fn is_reserved(bytes: &[u8]) -> bool
    ensures { result ≡ is_some (find (λ w. bytes_eq bytes.now (word_spelling w)) WORDS) }
{
    let words: [&[u8]; 38] = RESERVED;
    contains(words.as_slice(), bytes)
}

// Whether the bytes are one of the words.
fn contains(words: &[&[u8]], bytes: &[u8]) -> bool
    ensures { result ≡ list_any (λ w. bytes_eq bytes.now w.now) words.now }
{
    words.iter().any(|word| bytes == *word)
}
