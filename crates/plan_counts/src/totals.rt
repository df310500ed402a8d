// Sums over loops.

ghost use Rattle.std.specs.Prelude.{◌≡◌, IfOk};
ghost use Rattle.plan_counts.specs.Parts.{no_totals, with_loop};

use crate::sums::sum_of;
use crate::types::LoopCounts;
use op_num::OutOfMemory;

/// The sums of counts over loops.
#[derive(Clone, Copy, PartialEq, Eq, Debug)]
pub struct Totals {
    pub runs: u64,
    pub exchanges: u64,
    pub messages: u64,
    pub cells: u64,
    pub owned: u64,
    pub repeated: u64,
    pub blocks: u64,
}

/// The sums of no loop.
pub fn no_totals() -> Totals
    ensures { result ≡ no_totals }
{
    Totals {
        runs: 0,
        exchanges: 0,
        messages: 0,
        cells: 0,
        owned: 0,
        repeated: 0,
        blocks: 0,
    }
}

/// The sums with those of a further loop. An error is want of memory, where 64 bits can't count.
pub fn with_loop(totals: Totals, counts: &LoopCounts) -> Result<Totals, OutOfMemory>
    ensures { IfOk result (λ t. t ≡ with_loop totals counts.now) }
{
    let runs = sum_of(totals.runs, counts.runs)?;
    let exchanges = sum_of(totals.exchanges, counts.exchanges)?;
    let messages = sum_of(totals.messages, counts.messages)?;
    let cells = sum_of(totals.cells, counts.cells)?;
    let owned = sum_of(totals.owned, counts.owned)?;
    let repeated = sum_of(totals.repeated, counts.repeated)?;
    let blocks = sum_of(totals.blocks, counts.blocks)?;
    Ok(Totals {
        runs,
        exchanges,
        messages,
        cells,
        owned,
        repeated,
        blocks,
    })
}
