// What words ask for.

use cell_numbers::Shown;
use command_words::Options;
use gmsh_mesh::Dimension;

/// What is done with a program over a mesh.
#[derive(Clone, Copy, Debug)]
pub enum ProgramJob<'a> {
    /// What the dat that it prints with `file` as its file, behind `earlier` such dats, says in the output that the
    /// file `output` holds; `earlier` is below 2 ^ 32.
    Picks {
        output: &'a str,
        file: &'a str,
        earlier: u64,
    },
    /// The graph of neighbours by the map of this name is written.
    Graphs {
        map: &'a str,
    },
    /// Owners on so many ranks, 1 to 64, are written: those of the set `set` are what a graph partitioner wrote in the
    /// file `file`, and those of the other sets are derived from them.
    TakesOwners {
        ranks: u32,
        file: &'a str,
        set: &'a str,
    },
}

/// What is shown of a mesh.
#[derive(Clone, Copy, Debug)]
pub struct Picture<'a> {
    /// The name of the dat that has the coordinates of the nodes.
    pub coords: &'a str,
    /// The name of the map that leads from each cell to its nodes.
    pub cells: &'a str,
    /// What the numbers of the cells say.
    pub shown: Shown,
}

/// What is done with the plan of a program over a mesh.
#[derive(Clone, Copy, Debug)]
pub enum PlanJob<'a> {
    /// Who owns which element there is written, as the text of a partition.
    TellsOwners,
    /// What it costs is told loop by loop; where `plain` is set, for a script.
    Counts {
        plain: bool,
    },
    /// A picture of the mesh is drawn.
    Draws {
        picture: Picture<'a>,
    },
    /// The grid of the mesh is written for VTK, with what a run printed where the file of its output is named.
    Grids {
        picture: Picture<'a>,
        output: Option<&'a str>,
    },
}

/// What the words ask for.
#[derive(Clone, Copy, Debug)]
pub enum Asked<'a> {
    /// The job on the program in the file `source` over the mesh in the file `mesh`.
    OnProgram {
        job: ProgramJob<'a>,
        source: &'a str,
        mesh: &'a str,
    },
    /// The job on the plan of that program, with these options.
    OnPlan {
        job: PlanJob<'a>,
        options: Options<'a>,
        source: &'a str,
        mesh: &'a str,
    },
    /// The mesh text of the mesh of Gmsh in `file`, of this dimension or that of its elements, coordinates times
    /// `scale`, which is not 0; where `writes_source` is set, a program for it.
    Convert {
        file: &'a str,
        dim: Option<Dimension>,
        scale: u32,
        writes_source: bool,
    },
    /// What a call of `op2` with these words, the program's name first, answers is explained.
    Explain {
        call: &'a Vec<String>,
    },
    /// What the program says of its use.
    Usage,
    /// The version of the program.
    Version,
}
