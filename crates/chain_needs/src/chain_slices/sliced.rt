// The slices of a program's chains.

ghost use Rattle.std.specs.Prelude.{◌≡◌, ◌<◌, ◌&&◌, not, ℕ, true, length};
ghost use Rattle.lemmas.specs.Below.{listed};
ghost use Rattle.mesh_decl.specs.declared.owners.Owners.{Owners};
ghost use Rattle.mesh_decl.specs.Mesh.{dat_count, dat_set, set_size};
ghost use Rattle.schedule_model.specs.Program.{elements};
ghost use Rattle.bound_program.specs.Values.{BoundValue};
ghost use Rattle.run_model.specs.Programs.{program_of};
ghost use Rattle.chain_model.specs.Slices.{loops_from, needs, executes, owns_pair};
ghost use Rattle.chain_model.specs.Counts.{begins_at, chain_count, message_count};
ghost use Rattle.chain_needs.specs.Levels.{IsFirstLevel};
ghost use Rattle.chain_needs.specs.Shapes.{IsShape, loops_of};
ghost use Rattle.chain_needs.specs.Slices.{AreSlices, IsFreeItem, IsNeeded, IsPairOf, IsElementOf};

use crate::chain_slices::levels::Level;
use crate::chain_slices::messages::{contains, ranks_of};
use crate::chain_slices::shapes::Shape;
use local_mesh::rank_sets::RankSet;

/// Where the level of an item stands: of a chain that is kept, by its number and that of the level.
#[derive(Clone, Copy)]
pub struct LevelAt {
    pub shape: usize,
    pub level: usize,
}

/// What ranks need before each loop of the chains of a program, and which elements they execute.
#[derive(Drop)]
pub struct Slices {
    /// By item, where the level of a Free one stands.
    pub places: Vec<Option<LevelAt>>,
    /// The chains with different loops.
    pub shapes: Vec<Shape>,
    pub chains: u32,
    pub messages: u64,
}

impl Slices {
    /// How many chains the program has.
    pub fn chains(&self) -> u32
        ensures { (b : BoundValue) (o : Owners) → AreSlices b o self.now → result ≡ chain_count b }
    {
        self.chains
    }

    /// How many messages its chains send: at most one for each chain and two ranks.
    pub fn messages(&self) -> u64
        ensures { (b : BoundValue) (o : Owners) → AreSlices b o self.now → result ≡ message_count b o }
    {
        self.messages
    }

    // The level of a Free item.
    fn item_level(&self, item: u32) -> &Level
        requires { (b : BoundValue) × (o : Owners) × AreSlices b o self.now × IsFreeItem b item }
        ensures { (b : BoundValue) (o : Owners) → AreSlices b o self.now → IsFreeItem b item
            → IsFirstLevel b o (loops_from b item) result.now }
    {
        match self.places[item as usize] {
            Some(at) => &self.shapes[at.shape].levels[at.level],
            None => unreachable!(),
        }
    }

    /// Of a dat, by element, the ranks that need the pair before an item, which is Free.
    pub fn needed(&self, item: u32, dat: u32) -> &[RankSet]
        requires { (b : BoundValue) × (o : Owners) × AreSlices b o self.now × IsFreeItem b item × (dat < dat_count b.mesh) }
        ensures { (b : BoundValue) (o : Owners) → AreSlices b o self.now → IsFreeItem b item → dat < dat_count b.mesh
            → IsNeeded b o item dat result.now }
    {
        &self.item_level(item).needed[dat as usize]
    }

    /// The elements of the loop of an item, which is Free, that a rank executes, in increasing order.
    pub fn elements(&self, item: u32, rank: u32) -> &[u32]
        requires { (b : BoundValue) × (o : Owners) × AreSlices b o self.now × IsFreeItem b item × (rank < o.ranks) }
        ensures { (b : BoundValue) (o : Owners) → AreSlices b o self.now → IsFreeItem b item → rank < o.ranks
            → result.now ≡ listed (elements (program_of b) item) (executes b o item rank) }
    {
        &self.item_level(item).elements[rank as usize]
    }

    // The chain that an item is of.
    fn item_chain(&self, item: u32) -> &Shape
        requires { (b : BoundValue) × (o : Owners) × AreSlices b o self.now × IsFreeItem b item }
        ensures { (b : BoundValue) (o : Owners) → AreSlices b o self.now → IsFreeItem b item → begins_at b item ≡ true
            → IsShape b o result.now × (loops_of b result.now ≡ loops_from b item) }
    {
        match self.places[item as usize] {
            Some(at) => &self.shapes[at.shape],
            None => unreachable!(),
        }
    }

    /// Of a dat, the elements of pairs that a rank needs before an item, at which a chain begins, and doesn't own, in
    /// increasing order.
    pub fn copies(&self, item: u32, dat: u32, rank: u32) -> &[u32]
        requires { (b : BoundValue) × (o : Owners) × AreSlices b o self.now × IsFreeItem b item × (begins_at b item ≡ true)
            × (dat < dat_count b.mesh) × (rank < o.ranks) }
        ensures { (b : BoundValue) (o : Owners) → AreSlices b o self.now → IsFreeItem b item → begins_at b item ≡ true
            → dat < dat_count b.mesh → rank < o.ranks
            → result.now
            ≡ listed (set_size b.mesh (dat_set b.mesh dat)) (λ y. needs b o item rank dat y && not (owns_pair b o rank dat y)) }
    {
        &self.item_chain(item).copies[dat as usize][rank as usize]
    }

    /// Whether a rank needs the pair of a dat and an element before an item, which is Free.
    pub fn needs(&self, item: u32, rank: u32, dat: u32, element: u32) -> bool
        requires { (b : BoundValue) × (o : Owners) × AreSlices b o self.now × IsPairOf b o item rank dat element }
        ensures { (b : BoundValue) (o : Owners) → AreSlices b o self.now → IsPairOf b o item rank dat element
            → result ≡ needs b o item rank dat element }
    {
        contains(ranks_of(self.needed(item, dat), element), rank)
    }

    /// Whether a rank executes an element of the loop of an item, which is Free.
    pub fn executes(&self, item: u32, rank: u32, element: u32) -> bool
        requires { (b : BoundValue) × (o : Owners) × AreSlices b o self.now × IsElementOf b o item rank element }
        ensures { (b : BoundValue) (o : Owners) → AreSlices b o self.now → IsElementOf b o item rank element
            → result ≡ executes b o item rank element }
    {
        contains(ranks_of(&self.item_level(item).executing, element), rank)
    }
}
