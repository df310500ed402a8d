// Elements of one type, one behind another.
ghost use Rattle.std.specs.Prelude.{◌≡◌, ◌<◌, ◌≤◌, ◌++◌, [], ◌∷◌, OnOk, IfErr};
ghost use Rattle.gmsh_text.specs.Values.{no_table, no_elements, with_corner, with_row, corner_in, row_in};
ghost use Rattle.gmsh_text.specs.declared.refusal.TextRefusal.TheVariants as Refusal;

use crate::entities::Group;
use crate::kind::Kind;
use crate::refusal::TextRefusal;
use std::alloc::Global;
use std::marker::Model;

/// Elements of one type in the order of the file. Contracts see their lines, their groups and their nodes' tags.
#[derive(Debug, Drop)]
pub struct Table {
    lines: Vec<u32>,
    groups: Vec<Group>,
    nodes: Vec<u32>,
}

impl Model for Table {
    ghost use Rattle.gmsh_text.specs.Rows.{Rows};

    ghost Value = { Rows };

    ghost view = { λ t. record { lines = t.lines.items; groups = t.groups.items; nodes = t.nodes.items } };
}

impl Table {
    // No elements.
    fn new(alloc: Global) -> Table
        ensures { result ≡ no_table }
    {
        Table {
            lines: Vec::new(alloc),
            groups: Vec::new(alloc),
            nodes: Vec::new(alloc),
        }
    }

    /// The line of each element's tag.
    pub fn lines(&self) -> &[u32]
        ensures { result.now ≡ self.now.lines }
    {
        &self.lines
    }

    /// The physical group of each element.
    pub fn groups(&self) -> &[Group]
        ensures { result.now ≡ self.now.groups }
    {
        &self.groups
    }

    /// The tags of the nodes, element for element.
    pub fn nodes(&self) -> &[u32]
        ensures { result.now ≡ self.now.nodes }
    {
        &self.nodes
    }

    // One more node of the next element.
    fn push_corner(&mut self, node: u32) -> Result<(), TextRefusal>
        ensures pushed { OnOk result (self.new ≡ with_corner node self.old) }
        ensures lost { IfErr result (λ e. e ≡ Refusal.OutOfMemory) }
    {
        self.nodes.push(node)?;
        Ok(())
    }

    // The next element, whose nodes were pushed.
    fn push_row(&mut self, line: u32, group: Group) -> Result<(), TextRefusal>
        ensures pushed { OnOk result (self.new ≡ with_row line group self.old) }
        ensures lost { IfErr result (λ e. e ≡ Refusal.OutOfMemory) }
    {
        self.lines.push(line)?;
        self.groups.push(group)?;
        Ok(())
    }
}

/// The elements of a text by type; of points nothing is kept.
#[derive(Debug, Drop)]
pub struct Elements {
    pub lines: Table,
    pub triangles: Table,
    pub quadrangles: Table,
    pub tetrahedra: Table,
    pub hexahedra: Table,
}

impl Elements {
    // No elements.
    pub(crate) fn new(alloc: Global) -> Elements
        ensures { result ≡ no_elements }
    {
        Elements {
            lines: Table::new(alloc),
            triangles: Table::new(alloc),
            quadrangles: Table::new(alloc),
            tetrahedra: Table::new(alloc),
            hexahedra: Table::new(alloc),
        }
    }

    // One more node of the next element, which has this type.
    pub(crate) fn push_corner(&mut self, kind: Kind, node: u32) -> Result<(), TextRefusal>
        ensures pushed { OnOk result (self.new ≡ corner_in kind node self.old) }
        ensures lost { IfErr result (λ e. e ≡ Refusal.OutOfMemory) }
    {
        match kind {
            Kind::Point => Ok(()),
            Kind::Line => self.lines.push_corner(node),
            Kind::Triangle => self.triangles.push_corner(node),
            Kind::Quadrangle => self.quadrangles.push_corner(node),
            Kind::Tetrahedron => self.tetrahedra.push_corner(node),
            Kind::Hexahedron => self.hexahedra.push_corner(node),
        }
    }

    // The next element, which has this type and whose nodes were pushed.
    pub(crate) fn push_row(
        &mut self,
        kind: Kind,
        line: u32,
        group: Group,
    ) -> Result<(), TextRefusal>
        ensures pushed { OnOk result (self.new ≡ row_in kind line group self.old) }
        ensures lost { IfErr result (λ e. e ≡ Refusal.OutOfMemory) }
    {
        match kind {
            Kind::Point => Ok(()),
            Kind::Line => self.lines.push_row(line, group),
            Kind::Triangle => self.triangles.push_row(line, group),
            Kind::Quadrangle => self.quadrangles.push_row(line, group),
            Kind::Tetrahedron => self.tetrahedra.push_row(line, group),
            Kind::Hexahedron => self.hexahedra.push_row(line, group),
        }
    }
}
