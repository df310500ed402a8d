// Where the cells of messages stand, by the steps of the plan.

ghost use Rattle.std.specs.Prelude.{◌≡◌, ◌<◌, ◌≤◌, [], length, vec_capacity};
ghost use Rattle.schedule_steps.specs.declared.step.Step.TheVariants.{Send, Recv};
ghost use Rattle.rank_state.specs.Spans.{total};
ghost use Rattle.rank_state.specs.Shows.{AreExports, AreImports};
ghost use Rattle.loop_plan.specs.Values.{plan_of, item_plan};
ghost use Rattle.rank_layout.specs.Tables.{tables_of};
ghost use Rattle.rank_program.specs.Sound.{program_in, plan_in, setup_in, layout_in, HasStep};

use crate::runnable::Runnable;
use loop_plan::{Pair, Plan};
use rank_layout::{push_exports, push_imports, receives_stand, sends_stand};
use rank_state::Span;

// The dats that an item exchanges.
fn exchange_of(plan: &Plan, item: u32) -> &[u32]
    requires { item < length (plan_of plan.now).items }
    ensures { result.now ≡ (item_plan (plan_of plan.now) item).exchange }
{
    &plan.items[item as usize].exchange
}

/// Puts down where the cells of a message stand on its sender.
pub fn push_sent(program: &Runnable<'_>, item: u32, from: u32, to: u32, spans: &mut Vec<Span>)
    requires step { HasStep program.now (Send item from to) }
    requires empty { spans.old.items ≡ [] }
    requires room { program.now.tables.spans ≤ vec_capacity spans.old }
    ensures are { AreExports (setup_in program.now) (layout_in program.now) (tables_of (program_in program.now) (plan_in program.now))
        item from to from spans.new.items }
    ensures some { 0 < total spans.new.items }
    ensures room { vec_capacity spans.new ≡ vec_capacity spans.old }
{
    let program = program.parts();
    sends_stand();
    push_exports(
        &program.bound.mesh,
        &program.meshes[from as usize],
        program.lists,
        exchange_of(program.plan, item),
        Pair { from, to },
        spans,
    );
}

/// Puts down where the cells of a message from `from` stand on its receiver.
pub fn push_received(program: &Runnable<'_>, item: u32, rank: u32, from: u32, spans: &mut Vec<Span>)
    requires step { HasStep program.now (Recv item rank from) }
    requires empty { spans.old.items ≡ [] }
    requires room { program.now.tables.spans ≤ vec_capacity spans.old }
    ensures are { AreImports (setup_in program.now) (layout_in program.now) (tables_of (program_in program.now) (plan_in program.now))
        item from rank spans.new.items }
    ensures room { vec_capacity spans.new ≡ vec_capacity spans.old }
{
    let program = program.parts();
    receives_stand();
    push_imports(
        &program.bound.mesh,
        &program.meshes[rank as usize],
        program.lists,
        exchange_of(program.plan, item),
        Pair { from, to: rank },
        spans,
    );
}
