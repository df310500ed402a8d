// How the arguments of a loop let its kernel use its parameters.
ghost use Rattle.std.specs.Prelude.{◌≡◌, map, IfOk};
ghost use Rattle.op_num.specs.Access.{access_of};
ghost use Rattle.access_check.specs.Modes.{model_of};
ghost use Rattle.explanations.specs.Modes.{dim_of, asked_by, mode_by};

use access_check::{Access, Mode};
use c_tree::{AccessWord, LoopArg, NumberLiteral};
use op_num::OutOfMemory;
use std::alloc::Global;

// The access that a word names.
fn access_by(word: AccessWord) -> Access
    ensures { access_of result ≡ asked_by word }
{
    match word {
        AccessWord::Read => Access::Read,
        AccessWord::Write => Access::Write,
        AccessWord::Rw => Access::Rw,
        AccessWord::Inc => Access::Inc,
        AccessWord::Min => Access::Min,
        AccessWord::Max => Access::Max,
    }
}

// The dim that a literal spells.
fn dim_of(number: NumberLiteral) -> u32
    ensures { result ≡ dim_of number }
{
    number.value.max(0).unsigned_abs()
}

// How an argument lets the kernel use its parameter.
fn mode_by(arg: &LoopArg) -> Mode
    ensures { model_of result ≡ mode_by arg.now }
{
    match arg {
        LoopArg::Dat { dim, access, .. } => Mode {
            access: access_by(*access),
            dim: dim_of(*dim),
        },
        LoopArg::Global { dim, access, .. } => Mode {
            access: access_by(*access),
            dim: dim_of(*dim),
        },
    }
}

/// How the arguments of a loop let its kernel use its parameters, in order. An error is want of memory.
pub fn modes_by(alloc: Global, args: &[LoopArg]) -> Result<Vec<Mode>, OutOfMemory>
    ensures { IfOk result (λ v. map model_of v.items ≡ map mode_by args.now) }
{
    let mut modes = Vec::new(alloc);
    for arg in args {
        modes.push(mode_by(arg))?;
    }
    Ok(modes)
}
