// Loops of items.
ghost use Rattle.std.specs.Prelude.{◌≡◌, map};
ghost use Rattle.std.specs.List.{count_by};
ghost use Rattle.bound_program.specs.Values.{item_of};
ghost use Rattle.explanations.specs.Faults.{loop_of, runs};

use bound_program::Item;

/// The loop that an item runs, by its number in the program.
pub fn loop_of(item: &Item) -> Option<u32>
    ensures { result ≡ loop_of (item_of item.now) }
{
    match item {
        Item::Free { site } | Item::Ordered { site } => Some(*site),
        Item::Reduce { .. } | Item::Host { .. } => None,
    }
}

// Whether an item runs this loop.
fn runs(site: u32, item: &Item) -> bool
    ensures { result ≡ runs site (item_of item.now) }
{
    match item {
        Item::Free { site: other } | Item::Ordered { site: other } => *other == site,
        Item::Reduce { .. } | Item::Host { .. } => false,
    }
}

/// How many of the items run this loop.
pub fn turns_in(items: &[Item], site: u32) -> u64
    ensures { result ≡ count_by (runs site) (map item_of items.now) }
{
    items.iter().filter(|item| runs(site, *item)).count() as u64
}
