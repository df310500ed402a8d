// The tokens that a whole tree prints.

ghost use Rattle.std.specs.Prelude.{◌≡◌, IfOk};
ghost use Rattle.c_tree.specs.View.{program_of};
ghost use Rattle.c_tree.specs.Reads.{shown};

use crate::put_hosts::put_main;
use crate::put_tops::put_tops;
use c_tree::Program;
use c_tree::lexer::Kind;
use op_num::OutOfMemory;
use std::alloc::Global;

/// The kinds of the tokens that a tree prints, in order (the grammar of docs/LANGUAGE.md, read from the tree). Numbers
/// and places that the tree keeps have no part in it. Any tree has one, also one that no source is read as. It fails
/// only where memory runs out.
pub fn show(alloc: Global, program: &Program) -> Result<Vec<Kind>, OutOfMemory>
    ensures { IfOk result (λ v. v.items ≡ shown (program_of program.now)) }
{
    let mut out = Vec::new(alloc);
    put_main(&mut out, &program.main)?;
    put_tops(&mut out, &program.tops)?;
    out.reverse();
    Ok(out)
}
