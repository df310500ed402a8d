// Tokens that are words of the format.
ghost use Rattle.std.specs.Prelude.{◌≡◌, codes};
ghost use Rattle.schedule_steps.specs.Token.{is_magic as magic, is_version as version, rank_word_of, keyword_of};

/// The first word of a step of one rank, behind which three numbers stand.
#[derive(Clone, Copy, Debug, PartialEq, Eq)]
pub enum RankWord {
    Send,
    Recv,
    Begin,
    End,
}

/// The first word of a step. Behind `join` one number stands.
#[derive(Clone, Copy, Debug, PartialEq, Eq)]
pub enum StepWord {
    Rank(RankWord),
    Join,
}

/// A word that stands where a step or `done` is awaited.
#[derive(Clone, Copy, Debug, PartialEq, Eq)]
pub enum Keyword {
    Step(StepWord),
    Done,
}

/// Whether the token is the first one of every schedule file.
pub fn is_magic(text: &[u8]) -> bool
    ensures { result ≡ magic text.now }
{
    text == magic_word()
}

fn magic_word() -> &'static [u8]
    ensures { result.now ≡ codes "op2sched" }
{
    b"op2sched"
}

/// Whether the token names the version that is read.
pub fn is_version(text: &[u8]) -> bool
    ensures { result ≡ version text.now }
{
    text == version_word()
}

fn version_word() -> &'static [u8]
    ensures { result.now ≡ codes "1" }
{
    b"1"
}

/// The word of the format that the token is, if any.
pub fn read_keyword(text: &[u8]) -> Option<Keyword>
    ensures { result ≡ keyword_of text.now }
{
    if let Some(word) = read_rank_word(text) {
        Some(Keyword::Step(StepWord::Rank(word)))
    } else if text == join_word() {
        Some(Keyword::Step(StepWord::Join))
    } else if text == done_word() {
        Some(Keyword::Done)
    } else {
        None
    }
}

fn read_rank_word(text: &[u8]) -> Option<RankWord>
    ensures { result ≡ rank_word_of text.now }
{
    if text == begin_word() {
        Some(RankWord::Begin)
    } else if text == end_word() {
        Some(RankWord::End)
    } else if text == send_word() {
        Some(RankWord::Send)
    } else if text == recv_word() {
        Some(RankWord::Recv)
    } else {
        None
    }
}

fn send_word() -> &'static [u8]
    ensures { result.now ≡ codes "send" }
{
    b"send"
}

fn recv_word() -> &'static [u8]
    ensures { result.now ≡ codes "recv" }
{
    b"recv"
}

fn begin_word() -> &'static [u8]
    ensures { result.now ≡ codes "begin" }
{
    b"begin"
}

fn end_word() -> &'static [u8]
    ensures { result.now ≡ codes "end" }
{
    b"end"
}

fn join_word() -> &'static [u8]
    ensures { result.now ≡ codes "join" }
{
    b"join"
}

fn done_word() -> &'static [u8]
    ensures { result.now ≡ codes "done" }
{
    b"done"
}
