// Why a source has no translation, and why bytes have no restoration.

use c_tree::lexer::{LexRefusal, Pos};
use std::alloc::{AllocError, AllocFailed};
use thiserror::Error;

/// Why a source isn't translated or bytes aren't restored, and where. The refusal is the first in the text.
#[derive(Clone, Copy, PartialEq, Eq, Debug, Error)]
pub enum TransRefusal {
    /// The name here begins with `op_par_loop_`, as the names of stubs do. It comes in translating alone.
    #[error("name of a stub")]
    NameTaken { at: Pos },
    /// The name here begins with `op_par_loop_`, but no `(` follows, or the rest of it is no name that a kernel can
    /// have. It comes in restoring alone.
    #[error("stub without a call")]
    NoCall { at: Pos },
    /// An `op_par_loop` stands here. It comes in restoring alone.
    #[error("loop call that is no stub's")]
    LoopLeft { at: Pos },
    /// The bytes have no tokens. It comes in restoring alone, and never with the lexer's own want of memory.
    #[error("no tokens")]
    Lex(LexRefusal),
    /// Memory ran out.
    #[error("out of memory")]
    OutOfMemory,
}

impl From<AllocError> for TransRefusal {
    ghost use Rattle.std.specs.Prelude.{◌≡◌};
    ghost use Rattle.op_translate.specs.declared.refusals.TransRefusal.TheVariants.{OutOfMemory};

    ghost from_gives = { λ _ e. e ≡ OutOfMemory };

    fn from(_: AllocError) -> TransRefusal {
        TransRefusal::OutOfMemory
    }
}

impl<T: Drop> From<AllocFailed<T>> for TransRefusal {
    ghost use Rattle.std.specs.Prelude.{◌≡◌};
    ghost use Rattle.op_translate.specs.declared.refusals.TransRefusal.TheVariants.{OutOfMemory};

    ghost from_gives = { λ _ e. e ≡ OutOfMemory };

    fn from(_: AllocFailed<T>) -> TransRefusal {
        TransRefusal::OutOfMemory
    }
}

impl From<LexRefusal> for TransRefusal {
    ghost use Rattle.std.specs.Prelude.{◌≡◌};
    ghost use Rattle.op_translate.specs.Answered.{not_lexed};

    ghost from_gives = { λ r e. e ≡ not_lexed r };

    fn from(refusal: LexRefusal) -> TransRefusal {
        match refusal {
            LexRefusal::OutOfMemory => TransRefusal::OutOfMemory,
            LexRefusal::BadByte { at } => TransRefusal::Lex(LexRefusal::BadByte { at }),
            LexRefusal::OpenComment { at } => TransRefusal::Lex(LexRefusal::OpenComment { at }),
            LexRefusal::OpenText { at } => TransRefusal::Lex(LexRefusal::OpenText { at }),
            LexRefusal::NumberTooLarge { at } => {
                TransRefusal::Lex(LexRefusal::NumberTooLarge { at })
            }
        }
    }
}
