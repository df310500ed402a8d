// The counter of a `for` of `main`.

ghost use Rattle.std.specs.Prelude.{◌≡◌, OnOk};
ghost use Rattle.main_declarations.specs.KnownSets.{SetsKnown};
ghost use Rattle.main_declarations.specs.Variables.{with_turning};
ghost use Rattle.main_declarations.specs.Walks.{declared_of};

use c_tree::Ident;
use main_declarations::names::{Declared, Source};
use main_declarations::with_turning;
use op_num::OutOfMemory;

/// The body of a `for` knows its counter; the names of sets still stand for those of the mesh.
pub fn with_counter(
    source: &Source<'_>,
    k: &mut Declared,
    counter: &Ident,
) -> Result<(), OutOfMemory>
    requires { SetsKnown (declared_of k.old) }
    ensures counter { OnOk result (declared_of k.new ≡ with_turning source.now.places.now (declared_of k.old) counter.now.name) }
    ensures sets { OnOk result (SetsKnown (declared_of k.new)) }
{
    with_turning(source, k, &counter.name)
}
