// The ways in which a loop's arguments on dats reach elements.

ghost use Rattle.std.specs.Prelude.{◌≡◌, length};
ghost use Rattle.kernel_runs.specs.Tables.{AreWays, via_of};

use crate::row_batches::LocalVia;
use crate::row_batches::batch_tables::alike::first_way;
use crate::row_batches::batch_tables::args::LocalArg;
use bound_program::Arg;

// The way of an argument; one on a variable has none.
fn via_of<'a>(local: &Option<LocalArg<'a>>) -> Option<LocalVia<'a>>
    ensures { result ≡ via_of local.now }
{
    match local {
        None => None,
        Some(local) => local.via,
    }
}

/// Puts down the way of each argument, where none before it has the same, and by argument the number of its way: that
/// of the first argument with it.
pub fn put_ways<'a>(
    args: &[Arg],
    locals: &[Option<LocalArg<'a>>],
    numbers: &mut [usize],
    ways: &mut [Option<LocalVia<'a>>],
)
    requires locals { length locals.now ≡ length args.now }
    requires numbers { length numbers.old ≡ length args.now }
    requires ways { length ways.old ≡ length args.now }
    ensures { AreWays args.now locals.now numbers.new ways.new (length args.now) }
{
    for a in 0..args.len() {
        let first = first_way(args, a);
        numbers[a] = first;
        ways[a] = if first == a { via_of(&locals[a]) } else { None };
    }
}
