// Tokens that are words of the format.
ghost use Rattle.std.specs.Prelude.{◌≡◌, codes};
ghost use Rattle.partition.specs.Token.{keyword_of, is_magic as magic, is_version as version};

/// A word that stands where a set or `done` is awaited.
#[derive(Clone, Copy, Debug, PartialEq, Eq)]
pub enum Keyword {
    Set,
    Done,
}

/// Whether the token is the first one of every partition file.
pub fn is_magic(text: &[u8]) -> bool
    ensures { result ≡ magic text.now }
{
    text == magic_word()
}

fn magic_word() -> &'static [u8]
    ensures { result.now ≡ codes "op2part" }
{
    b"op2part"
}

/// Whether the token names the version that is read.
pub fn is_version(text: &[u8]) -> bool
    ensures { result ≡ version text.now }
{
    text == version_word()
}

fn version_word() -> &'static [u8]
    ensures { result.now ≡ codes "1" }
{
    b"1"
}

/// The word of the format that the token is, if any.
pub fn read_keyword(text: &[u8]) -> Option<Keyword>
    ensures { result ≡ keyword_of text.now }
{
    if text == set_word() {
        Some(Keyword::Set)
    } else if text == done_word() {
        Some(Keyword::Done)
    } else {
        None
    }
}

fn set_word() -> &'static [u8]
    ensures { result.now ≡ codes "set" }
{
    b"set"
}

fn done_word() -> &'static [u8]
    ensures { result.now ≡ codes "done" }
{
    b"done"
}
