// The ranks that a text has.

ghost use Rattle.std.specs.Prelude.{◌≡◌, ◌+◌, ◌<◌, ◌^◌, length};
ghost use Rattle.op_num.specs.Automaton.{Answers};
ghost use Rattle.metis_text.specs.declared.owner_text.metis.refusals.MetisRefusal.{MetisRefusal as Refusal};
ghost use Rattle.metis_text.specs.Numbers.{rank_on, ranks_in};

use crate::owner_text::metis::refusals::MetisRefusal;
use op_num::read_u64;
use op_num::texts::{Token, Tokens};
use std::alloc::Global;

// The rank on a line, where this is the next token.
fn rank_on(token: &Token<'_>, ranks: u32, line: u32) -> Result<u32, MetisRefusal>
    ensures { result ≡ rank_on ranks line token.now }
{
    if token.line() < line {
        return Err(MetisRefusal::Many { line: token.line() });
    }
    if token.line() > line {
        return Err(MetisRefusal::NoRank { line });
    }
    match read_u64(token.text()) {
        Ok(rank) if rank < ranks as u64 => Ok(rank as u32),
        _ => Err(MetisRefusal::NoRank { line }),
    }
}

/// The ranks that a text has for so many elements, each below `ranks`, line by line. The text has fewer than 2 ^ 32 - 1
/// bytes.
pub fn read_ranks(
    alloc: Global,
    bytes: &[u8],
    ranks: u32,
    elements: u32,
) -> Result<Vec<u32>, MetisRefusal>
    requires { length bytes.now + 1 < 2 ^ 32 }
    ensures { Answers Refusal.OutOfMemory result (λ v. v.items) (ranks_in ranks elements bytes.now) }
{
    let mut tokens = Tokens::new(bytes);
    let mut found = Vec::new(alloc);
    for element in 0..elements {
        let line = element + 1;
        let Some(token) = tokens.next() else {
            return Err(MetisRefusal::Few { line });
        };
        found.push(rank_on(&token, ranks, line)?)?;
    }
    match tokens.next() {
        None => Ok(found),
        Some(token) => Err(MetisRefusal::Many { line: token.line() }),
    }
}
