// The next steps of ranks.
ghost use Rattle.std.specs.Prelude.{◌≡◌, ◌<◌, nat_lt, List, not, false};
ghost use Rattle.schedule_steps.specs.declared.step.Step.{Step as StepValue};
ghost use Rattle.schedule_steps.specs.declared.step.Step.TheVariants.{Recv, Send};
ghost use Rattle.schedule_steps.specs.Steps.{item};
ghost use Rattle.schedule_steps.specs.Drawn.{is_early, waits};
ghost use Rattle.step_orders.specs.Rests.{rest_of, sent_below, is_sent, can_go};

use schedule_steps::Step;

// The item of a step.
fn item_of(step: Step) -> u32
    ensures { result ≡ item step }
{
    match step {
        Step::Send { item, .. } => item,
        Step::Recv { item, .. } => item,
        Step::Begin { item, .. } => item,
        Step::End { item, .. } => item,
        Step::Join { item } => item,
    }
}

/// Whether a rank's next step is of an item before the next join.
pub fn is_early(head: Option<Step>, join: u32) -> bool
    ensures { (l : List StepValue) → result ≡ is_early join (rest_of head l) }
{
    match head {
        Some(step) => item_of(step) < join,
        None => false,
    }
}

// Whether the message of an item is sent.
fn was_sent(sent: &[Vec<u32>], item: u32, from: u32, to: u32) -> bool
    ensures { result ≡ nat_lt item (sent_below sent.now from to) }
{
    let Some(row) = sent.get(from as usize) else {
        return false;
    };
    match row.get(to as usize) {
        Some(last) => item < *last,
        None => false,
    }
}

// Whether a step is a receive whose message isn't sent.
fn step_waits(step: Step, sent: &[Vec<u32>]) -> bool
    ensures { (l : List StepValue) → result ≡ waits (is_sent (sent_below sent.now)) (rest_of (Some step) l) }
{
    match step {
        Step::Recv { item, rank, from } => !was_sent(sent, item, from, rank),
        Step::Send { .. } => false,
        Step::Begin { .. } => false,
        Step::End { .. } => false,
        Step::Join { .. } => false,
    }
}

// Whether a rank's next step is a receive whose message isn't sent.
fn waits(head: Option<Step>, sent: &[Vec<u32>]) -> bool
    ensures { (l : List StepValue) → result ≡ waits (is_sent (sent_below sent.now)) (rest_of head l) }
{
    match head {
        Some(step) => step_waits(step, sent),
        None => false,
    }
}

/// Whether a rank's next step is of an item before the next join, and needn't wait for a message.
pub fn can_go(head: Option<Step>, join: u32, sent: &[Vec<u32>]) -> bool
    ensures { (l : List StepValue) → result ≡ can_go (is_sent (sent_below sent.now)) join (rest_of head l) }
{
    is_early(head, join) && !waits(head, sent)
}
