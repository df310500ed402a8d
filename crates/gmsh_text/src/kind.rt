// Types of elements.
ghost use Rattle.std.specs.Prelude.{◌≡◌, ◌<◌, ◌≤◌};
ghost use Rattle.gmsh_text.specs.Values.{kind_of, node_count};

/// The type of an element that is read: one with straight sides.
#[derive(Clone, Copy, Debug, PartialEq, Eq)]
pub enum Kind {
    Point,
    Line,
    Triangle,
    Quadrangle,
    Tetrahedron,
    Hexahedron,
}

impl Kind {
    /// How many nodes an element has.
    pub fn nodes(self) -> u32
        ensures { result ≡ node_count self }
    {
        match self {
            Kind::Point => 1,
            Kind::Line => 2,
            Kind::Triangle => 3,
            Kind::Quadrangle | Kind::Tetrahedron => 4,
            Kind::Hexahedron => 8,
        }
    }

    // The type of this number, in the numbering of Gmsh's reference manual ("MSH file format"), where it is read.
    pub(crate) fn from_number(number: u64) -> Option<Kind>
        ensures { result ≡ kind_of number }
    {
        match number {
            1 => Some(Kind::Line),
            2 => Some(Kind::Triangle),
            3 => Some(Kind::Quadrangle),
            4 => Some(Kind::Tetrahedron),
            5 => Some(Kind::Hexahedron),
            15 => Some(Kind::Point),
            _ => None,
        }
    }
}
