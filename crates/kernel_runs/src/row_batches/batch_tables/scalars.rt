// Where arguments on variables stand in a row's frame.

ghost use Rattle.std.specs.Prelude.{◌≡◌, ◌<◌, ◌+◌, ◌-◌, ◌^◌, ℕ, length, get_or};
ghost use Rattle.kernel_runs.specs.Tables.{place_at, scalar_place};

use crate::row_batches::batch_tables::args::LocalArg;
use kernel_model::types::views::Place;

/// Puts down where arguments on variables stand in a row's frame behind so many columns: as `stand` has them behind so
/// many cells.
pub fn put_scalars(
    locals: &[Option<LocalArg<'_>>],
    stand: &[Place],
    columns: usize,
    cells: usize,
    places: &mut [Place],
)
    requires stand { length stand.now ≡ length locals.now }
    requires places { length places.old ≡ length locals.now }
    requires fits { (a : ℕ) → a < length locals.now → get_or locals.now a None ≡ None
        → columns + ((place_at stand.now a).from - cells) < 2 ^ 64 }
    ensures { (a : ℕ) → a < length locals.now → place_at places.new a
        ≡ scalar_place columns cells (get_or locals.now a None) (place_at stand.now a) (place_at places.old a) }
{
    for a in 0..locals.len() {
        if locals[a].is_none() {
            places[a] = Place {
                from: columns + stand[a].from.saturating_sub(cells),
                count: stand[a].count,
            };
        }
    }
}
