// What the tables of a machine say of its setup and its layout.
ghost use Rattle.rank_layout.specs.TableLaws.{TablesAreIndexed, SlotsStand, PlacesStand, ScalarsStand};

/// A law: of the machine's tables each index of a rank's buffer and of the variables is its cell's, the constants are
/// cells of variables, and no Free loop has more places on a rank than there are for it.
pub fn tables_are_indexed()
    ensures { TablesAreIndexed }
{
    bound_plan::cells_have_one_index();
    run_model::constants_are_read();
}

/// A law: the slots that were made merge amounts as the loops do that reduce into them.
pub fn slots_stand()
    ensures { SlotsStand }
{}

/// A law: the numbers of places that were made are those of the ranks.
pub fn places_stand()
    ensures { PlacesStand }
{}

/// A law: the scalars of a loop are those of each item that runs it: cells that it reads, and cells into which it
/// reduces, each once; they have all of the loop's slots.
pub fn scalars_stand()
    ensures { ScalarsStand }
{}
