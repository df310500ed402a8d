// Sets, maps and dats by their names.
ghost use Rattle.mesh_decl.specs.Named.{NamesSet, NamesMap, NamesDat, NamesOne};

use crate::mesh::Mesh;

impl Mesh {
    /// The number of the first set of this name, or none where no set has it. It takes time linear in the sets.
    pub fn set_named(&self, name: &[u8]) -> Option<u32>
        ensures { NamesSet self.now name.now result }
    {
        for set in 0..self.set_count() {
            if self.set_name(set).bytes() == name {
                return Some(set);
            }
        }
        None
    }

    /// The number of the first map of this name, or none where no map has it. It takes time linear in the maps.
    pub fn map_named(&self, name: &[u8]) -> Option<u32>
        ensures { NamesMap self.now name.now result }
    {
        for map in 0..self.map_count() {
            if self.map_name(map).bytes() == name {
                return Some(map);
            }
        }
        None
    }

    /// The number of the first dat of this name, or none where no dat has it. It takes time linear in the dats.
    pub fn dat_named(&self, name: &[u8]) -> Option<u32>
        ensures { NamesDat self.now name.now result }
    {
        for dat in 0..self.dat_count() {
            if self.dat_name(dat).bytes() == name {
                return Some(dat);
            }
        }
        None
    }
}

/// A law: a name names one number, or none.
pub fn one_named()
    ensures { NamesOne }
{}
