// Meshes.
ghost use Rattle.std.specs.Prelude.{◌≡◌, ℕ, ℤ, pos, ◌+◌, ◌*◌, ◌^◌, ◌<◌, ◌⊎◌, ◌++◌, List, [], ◌∷◌, length, unsigned_abs, slice_index_or};
ghost use Rattle.std.specs.Prelude.{OnOk, OnErr, IfOk, IfErr, IfSome, IfNone};
ghost use Rattle.mesh_decl.specs.declared.decl.MapRefusal.{MapRefusal as Refusal};
ghost use Rattle.mesh_decl.specs.Mesh.{no_mesh, set_count, map_count, dat_count, set_size, set_name, map_from, map_to, map_dim, map_name};
ghost use Rattle.mesh_decl.specs.Mesh.{target, dat_set, dat_dim, dat_name, dat_values, with_values, is_element as is_element_of};
ghost use Rattle.mesh_decl.specs.Mesh.{AreElements, IsMapAt};
ghost use Rattle.mesh_decl.specs.Mesh.{IsDatAt, IsInRange, IsFirstBad, RefusesTarget};

use crate::decl::{DatDecl, MapDecl, MapRefusal, SetDecl};
use crate::text::Values;
use op_num::{Name, OutOfMemory};
use std::alloc::{AllocError, Global};
use std::marker::Model;

/// Sets, maps and dats, each kind numbered from 0 in order of declaration. In every mesh all lengths fit, each dim is
/// at least 1, and each target is an element of its set; contracts see the lists of what was declared, and `map_count`
/// and `dat_count` give these facts.
#[derive(Debug, Drop)]
pub struct Mesh {
    sets: Vec<SetDecl>,
    maps: Vec<MapDecl>,
    dats: Vec<DatDecl>,
}

impl Model for Mesh {
    ghost use Rattle.mesh_decl.specs.Mesh.{MeshValue, IsMesh};

    ghost Value = { MeshValue };

    ghost view = { λ m. record { sets = m.sets.items; maps = m.maps.items; dats = m.dats.items } };

    ghost invariant = { λ m. IsMesh (record { sets = m.sets.items; maps = m.maps.items; dats = m.dats.items }) };
}

impl Mesh {
    /// No set, no map, no dat. Takes no memory.
    pub fn new(alloc: Global) -> Mesh
        ensures { result ≡ no_mesh }
    {
        Mesh {
            sets: Vec::new(alloc),
            maps: Vec::new(alloc),
            dats: Vec::new(alloc),
        }
    }

    /// Adds a set of `size` elements behind the others, and gives its number. Where that fails for want of memory, also
    /// where there are 4294967295 sets, the mesh stays as it was.
    pub fn add_set(&mut self, name: Name, size: u32) -> Result<u32, OutOfMemory>
        ensures ok { IfOk result (λ n. (n ≡ set_count self.old)
            × (self.new ≡ record self.old { sets = self.old.sets ++ (record { name = name; size = size }) ∷ [] })) }
        ensures err { OnErr result (self.new ≡ self.old) }
    {
        let number = self.sets.len();
        if number >= 4294967295 {
            return Err(AllocError);
        }
        self.sets.push(SetDecl { name, size })?;
        Ok(number as u32)
    }

    /// Adds a map behind the others, with `dim` targets for each element of the set numbered `from`, in order of
    /// elements, and gives its number. `MapRefusal::Target` comes exactly where a target is no element of the set
    /// numbered `to`, with the first one. After a refusal, and where it fails for want of memory (also where there are
    /// 4294967295 maps), the mesh stays as it was.
    pub fn add_map(
        &mut self,
        name: Name,
        from: u32,
        to: u32,
        dim: u32,
        targets: Vec<i32>,
    ) -> Result<u32, MapRefusal>
        requires from { from < set_count self.old }
        requires to { to < set_count self.old }
        requires dim { 0 < dim }
        requires size { length targets.items ≡ set_size self.old from * dim }
        ensures ok { IfOk result (λ n. (n ≡ map_count self.old)
            × (self.new ≡ record self.old {
              maps = self.old.maps
                  ++ (record { name = name; from = from; to = to; dim = dim; targets = targets.items }) ∷ [];
            })) }
        ensures good { OnOk result (AreElements (set_size self.old to) targets.items) }
        ensures target { IfErr result (λ r. (r ≡ Refusal.OutOfMemory) ⊎ RefusesTarget (set_size self.old to) dim targets.items r) }
        ensures err { OnErr result (self.new ≡ self.old) }
    {
        if let Some(index) = first_bad(self.set_size(to), &targets) {
            return Err(target_refusal(index, self.set_size(from), dim));
        }
        let number = self.maps.len();
        if number >= 4294967295 {
            return Err(MapRefusal::OutOfMemory);
        }
        let targets = Values::new(targets);
        self.maps.push(MapDecl {
            name,
            from,
            to,
            dim,
            targets,
        })?;
        Ok(number as u32)
    }

    /// Adds a dat behind the others, with `dim` values for each element of the set numbered `set`, in order of
    /// elements, and gives its number. Where that fails for want of memory, also where there are 4294967295 dats, the
    /// mesh stays as it was.
    pub fn add_dat(
        &mut self,
        name: Name,
        set: u32,
        dim: u32,
        values: Vec<i32>,
    ) -> Result<u32, OutOfMemory>
        requires set { set < set_count self.old }
        requires dim { 0 < dim }
        requires size { length values.items ≡ set_size self.old set * dim }
        ensures ok { IfOk result (λ n. (n ≡ dat_count self.old)
            × (self.new ≡ record self.old {
              dats = self.old.dats
                  ++ (record { name = name; set = set; dim = dim; values = values.items }) ∷ [];
            })) }
        ensures err { OnErr result (self.new ≡ self.old) }
    {
        let number = self.dats.len();
        if number >= 4294967295 {
            return Err(AllocError);
        }
        let values = Values::new(values);
        self.dats.push(DatDecl {
            name,
            set,
            dim,
            values,
        })?;
        Ok(number as u32)
    }

    /// Gives the dat numbered `dat` these values in place of its own, as many: those of element 0, then those of
    /// element 1, and so on. Takes no memory.
    pub fn set_values(&mut self, dat: u32, values: Values)
        requires dat { dat < dat_count self.old }
        requires size { length values ≡ length (dat_values self.old dat) }
        ensures { self.new ≡ record self.old { dats = with_values self.old.dats dat values } }
    {
        self.dats[dat as usize].values = values;
    }

    /// A law: what is so of every mesh, by the numbers of its sets, maps and dats.
    pub fn is_in_range(&self)
        ensures { IsInRange self.now }
    {
        let _ = self.sets.len();
    }

    /// How many sets there are. Each has fewer than 2 ^ 32 elements.
    pub fn set_count(&self) -> u32
        ensures count { result ≡ set_count self.now }
        ensures sizes { (s : ℕ) → set_size self.now s < 2 ^ 32 }
    {
        self.sets.len() as u32
    }

    /// How many elements the set numbered `set` has.
    pub fn set_size(&self, set: u32) -> u32
        requires { set < set_count self.now }
        ensures { result ≡ set_size self.now set }
    {
        self.sets[set as usize].size
    }

    /// The name of the set numbered `set`.
    pub fn set_name(&self, set: u32) -> &Name
        requires { set < set_count self.now }
        ensures { result.now ≡ set_name self.now set }
    {
        &self.sets[set as usize].name
    }

    /// How many maps there are; and what is so of each, by its number.
    pub fn map_count(&self) -> u32
        ensures count { result ≡ map_count self.now }
        ensures maps { (m : ℕ) → m < map_count self.now → IsMapAt self.now m }
    {
        self.maps.len() as u32
    }

    /// The set from which the map numbered `map` leads, the set to which it leads, and its dim, the number of targets
    /// of each element.
    pub fn map_ends(&self, map: u32) -> (u32, u32, u32)
        requires { map < map_count self.now }
        ensures { result ≡ (map_from self.now map, map_to self.now map, map_dim self.now map) }
    {
        let decl = &self.maps[map as usize];
        (decl.from, decl.to, decl.dim)
    }

    /// The target at `place`, from 0, of an element of the set from which the map numbered `map` leads: an element of
    /// the set to which it leads.
    pub fn target(&self, map: u32, element: u32, place: u32) -> u32
        requires map { map < map_count self.now }
        requires element { element < set_size self.now (map_from self.now map) }
        requires place { place < map_dim self.now map }
        ensures value { result ≡ target self.now map element place }
        ensures within { result < set_size self.now (map_to self.now map) }
    {
        let decl = &self.maps[map as usize];
        target_at(decl, element, place)
    }

    /// The name of the map numbered `map`.
    pub fn map_name(&self, map: u32) -> &Name
        requires { map < map_count self.now }
        ensures { result.now ≡ map_name self.now map }
    {
        &self.maps[map as usize].name
    }

    /// How many dats there are; and what is so of each, by its number.
    pub fn dat_count(&self) -> u32
        ensures count { result ≡ dat_count self.now }
        ensures dats { (d : ℕ) → d < dat_count self.now → IsDatAt self.now d }
    {
        self.dats.len() as u32
    }

    /// The set of the dat numbered `dat`, and its dim, the number of values of each element.
    pub fn dat_shape(&self, dat: u32) -> (u32, u32)
        requires { dat < dat_count self.now }
        ensures { result ≡ (dat_set self.now dat, dat_dim self.now dat) }
    {
        let decl = &self.dats[dat as usize];
        (decl.set, decl.dim)
    }

    /// The values of the dat numbered `dat`: those of element 0, then those of element 1, and so on.
    pub fn dat_values(&self, dat: u32) -> &[i32]
        requires { dat < dat_count self.now }
        ensures { result.now ≡ dat_values self.now dat }
    {
        self.dats[dat as usize].values.as_slice()
    }

    /// The name of the dat numbered `dat`.
    pub fn dat_name(&self, dat: u32) -> &Name
        requires { dat < dat_count self.now }
        ensures { result.now ≡ dat_name self.now dat }
    {
        &self.dats[dat as usize].name
    }
}

// The target at a place of an element.
fn target_at(decl: &MapDecl, element: u32, place: u32) -> u32
    requires within { element * decl.now.dim + place < length decl.now.targets }
    requires elements { (size : ℕ) × (size < 2 ^ 32) × AreElements size decl.now.targets }
    ensures { result ≡ unsigned_abs (slice_index_or decl.now.targets (element * decl.now.dim + place) (pos 0)) }
{
    let index = element as usize * decl.dim as usize + place as usize;
    decl.targets.as_slice()[index] as u32
}

// The refusal of the first bad target, which stands at this index.
fn target_refusal(index: usize, size: u32, dim: u32) -> MapRefusal
    requires dim { 0 < dim }
    requires within { index < size * dim }
    ensures { (to : ℕ) (targets : List ℤ) → IsFirstBad to targets index → RefusesTarget to dim targets result }
{
    MapRefusal::Target {
        element: (index / dim as usize) as u32,
        place: (index % dim as usize) as u32,
    }
}

// The index of the first number that is no element of a set of this size.
fn first_bad(size: u32, targets: &[i32]) -> Option<usize>
    ensures bad { IfSome result (IsFirstBad size targets.now) }
    ensures good { IfNone result (AreElements size targets.now) }
    ensures within { IfSome result (λ i. i < length targets.now) }
{
    for (index, target) in targets.iter().enumerate() {
        if !is_element(size, *target) {
            return Some(index);
        }
    }
    None
}

fn is_element(size: u32, target: i32) -> bool
    ensures { result ≡ is_element_of size target }
{
    target >= 0 && (target as u32) < size
}
