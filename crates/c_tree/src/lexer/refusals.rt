// Why the bytes of a source have no tokens.

use crate::lexer::tokens::Pos;
use std::alloc::{AllocError, AllocFailed};
use thiserror::Error;

/// Why the bytes of a source have no list of tokens, and where. The refusal is the first in the source.
#[derive(Clone, Copy, PartialEq, Eq, Debug, Error)]
pub enum LexRefusal {
    /// No token and no comment begins at this byte, it stands directly after a number though a name could go on with
    /// it, or a text can't hold it or the escape that it begins.
    #[error("bad byte")]
    BadByte { at: Pos },
    /// The comment whose `/*` is here has no `*/`.
    #[error("comment without its end")]
    OpenComment { at: Pos },
    /// The text whose `"` is here isn't closed on its line.
    #[error("text without its closing quote")]
    OpenText { at: Pos },
    /// The number whose first digit is here is above 2147483647.
    #[error("number too large")]
    NumberTooLarge { at: Pos },
    /// Memory ran out.
    #[error("out of memory")]
    OutOfMemory,
}

impl From<AllocError> for LexRefusal {
    ghost use Rattle.std.specs.Prelude.{◌≡◌};
    ghost use Rattle.c_tree.specs.declared.lexer.refusals.LexRefusal.TheVariants.{OutOfMemory};

    ghost from_gives = { λ _ e. e ≡ OutOfMemory };

    fn from(_: AllocError) -> LexRefusal {
        LexRefusal::OutOfMemory
    }
}

impl<T: Drop> From<AllocFailed<T>> for LexRefusal {
    ghost use Rattle.std.specs.Prelude.{◌≡◌};
    ghost use Rattle.c_tree.specs.declared.lexer.refusals.LexRefusal.TheVariants.{OutOfMemory};

    ghost from_gives = { λ _ e. e ≡ OutOfMemory };

    fn from(_: AllocFailed<T>) -> LexRefusal {
        LexRefusal::OutOfMemory
    }
}
