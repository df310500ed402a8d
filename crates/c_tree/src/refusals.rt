// Why a source has no tree.

use crate::lexer::{LexRefusal, Pos};
use thiserror::Error;

/// Why the bytes of a source have no tree of at most 64 levels, and where.
#[derive(Clone, Copy, PartialEq, Eq, Debug, Error)]
pub enum SourceRefusal {
    /// The bytes have no tokens.
    #[error("no tokens")]
    Lex(LexRefusal),
    /// No tree has these tokens: the token here, or the end of the source just past its last byte, fits none.
    #[error("syntax")]
    Syntax { at: Pos },
    /// The tree of these tokens has more than 64 levels: the token here is the first beyond them.
    #[error("nested too deeply")]
    TooDeep { at: Pos },
    /// Memory ran out.
    #[error("out of memory")]
    OutOfMemory,
}
