// Pairs of ways that must not lead from one place to one element.

ghost use Rattle.std.specs.Prelude.{◌≡◌, ◌<◌, IfSome, length};
ghost use Rattle.kernel_runs.specs.Tables.{ArePairs};

use crate::row_batches::batch_tables::alike::can_meet;
use bound_program::Arg;

// Puts down the pairs of argument `a` with arguments before it. Answers how many there are now; none where there is no
// room.
fn put_pairs_of(
    args: &[Arg],
    numbers: &[usize],
    a: usize,
    pairs: &mut [(usize, usize)],
    count: usize,
) -> Option<usize>
    requires numbers { length numbers.now ≡ length args.now }
    requires there { a < length args.now }
    requires before { ArePairs args.now numbers.now pairs.old a 0 count }
    ensures { IfSome result (ArePairs args.now numbers.now pairs.new a a) }
{
    let mut count = count;
    for b in 0..a {
        if can_meet(args[a], args[b]) {
            if count == pairs.len() {
                return None;
            }
            pairs[count] = (numbers[a], numbers[b]);
            count += 1;
        }
    }
    Some(count)
}

/// Puts down the pairs of numbers of ways in which arguments reach one dat that the loop may modify. Answers how many
/// there are; none where there is no room for them.
pub fn put_pairs(args: &[Arg], numbers: &[usize], pairs: &mut [(usize, usize)]) -> Option<usize>
    requires numbers { length numbers.now ≡ length args.now }
    ensures { IfSome result (ArePairs args.now numbers.now pairs.new (length args.now) 0) }
{
    let mut count = 0;
    for a in 0..args.len() {
        count = put_pairs_of(args, numbers, a, pairs, count)?;
    }
    Some(count)
}
