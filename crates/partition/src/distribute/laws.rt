// That what is asked for comes to one outcome.
ghost use Rattle.partition.specs.Laws.{NumbersAreOne, OwnersAreOne, DistributionsAreOne};

use crate::part_text::one_outcome;
use crate::{one_bisection, one_derived, one_growth};
use local_mesh::halo_lists::one_halos;
use local_mesh::one_rank_meshes;
use mesh_decl::one_named;
use renumber::one_numbering;

/// New numbers come to one outcome.
pub fn one_numbers()
    ensures { NumbersAreOne }
{
    one_named();
    one_numbering();
}

/// Owners come to one outcome.
pub fn one_owners()
    ensures { OwnersAreOne }
{
    one_named();
    one_derived();
    one_bisection();
    one_growth();
    one_outcome();
}

/// The same owners and new numbers have one distribution, wherever they lie in memory.
pub fn one_distribution()
    ensures { DistributionsAreOne }
{
    one_halos();
    one_rank_meshes();
}
