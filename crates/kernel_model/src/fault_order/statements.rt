// What the statements of a kernel may do.

ghost use Rattle.std.specs.Prelude.{◌≡◌};
ghost use Rattle.kernel_model.specs.Effects.{effects_of, faults_first};

use crate::fault_order::effects::Effects;
use crate::fault_order::expressions::{assigning_may_fault, count_at, may_be_out, may_fault};
use crate::types::{RKernel, RStmt};

// What a statement may do, over arguments with so many components.
fn effects_of(st: &RStmt, counts: &[u32]) -> Effects
    ensures { result ≡ effects_of counts.now st.now }
{
    match st {
        RStmt::Block(all) => {
            let mut done = Effects::none();
            for inner in all {
                done = done.then(effects_of(inner, counts));
            }
            done
        }
        RStmt::Declare { .. } => Effects::none(),
        RStmt::SetScalar { op, value, .. } => {
            Effects::fault_if(assigning_may_fault(*op, value, counts))
        }
        RStmt::SetLocal {
            count,
            index,
            op,
            value,
            ..
        } => Effects::fault_if(
            may_be_out(*count, index) || assigning_may_fault(*op, value, counts),
        ),
        RStmt::SetArg {
            param,
            index,
            op,
            value,
            ..
        } => {
            let out = may_be_out(count_at(counts, *param), index);
            let faults = out || assigning_may_fault(*op, value, counts);
            Effects::fault_if(faults).then(Effects::a_store())
        }
        RStmt::If {
            condition,
            then,
            otherwise,
        } => {
            let branches = effects_of(then, counts).or(effects_of(otherwise, counts));
            Effects::fault_if(may_fault(condition, counts)).then(branches)
        }
        RStmt::For { body, .. } => {
            let turn = effects_of(body, counts);
            turn.then(turn)
        }
    }
}

/// Whether no part of a kernel that may fault can run after a store through an argument, over arguments with so many
/// components, one number for each. After a fault of such a kernel all cells are as they were
/// (`unchanged_after_faults`). What may fault is a division, a remainder or a shift by what is no fitting number, and
/// an index that is no number below the count. A kernel of which it is false may still be such a one. It takes no
/// memory, and time linear in the size of the kernel.
pub fn faults_first(kernel: &RKernel, counts: &[u32]) -> bool
    ensures { result ≡ faults_first counts.now kernel.now }
{
    effects_of(&kernel.body.statement, counts).ordered
}
