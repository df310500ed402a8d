// How many cells a side of the sample's grid has.

ghost use Rattle.std.specs.Prelude.{◌<◌, ◌≤◌};
ghost use Rattle.mesh_gen.specs.declared.places.TheConstants.{MAX_SIDE};

/// How many cells a side of the sample's grid has, 1 to 200.
#[derive(Clone, Copy, Debug)]
pub struct Side {
    pub cells: u32,
    pub ghost some: { 0 < cells },
    pub ghost few: { cells ≤ MAX_SIDE },
}
