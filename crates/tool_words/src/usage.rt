// The texts that the program writes about itself.

/// What `--help` writes.
pub const USAGE: &str = "op2-tools JOB WORD .. [OPTION ..]

Jobs
  pick SOURCE MESH OUTPUT FILE [N]
                 writes what the N-th dat that the program prints with FILE as its file says, out of the output of a run
                 in the file OUTPUT; N is 1 where it isn't given. SOURCE and MESH are those of the run: they tell where it is
  graph SOURCE MESH MAP
                 writes the graph of neighbours by the map MAP in METIS's format: a line for each element of the set to which
                 it leads
  owners SOURCE MESH
                 writes who owns which element on the ranks of a plan, as the text of a partition
  owners SOURCE MESH --metis F --set SET [--ranks N]
                 writes the owners that a graph partitioner gave the elements of SET, and those of the other sets by them
  stat SOURCE MESH
                 writes what a plan costs: of each loop the site and the class, its runs, exchanges, messages and cells, the
                 elements and how they are spread, and its blocks and colours
  draw SOURCE MESH --coords DAT --cells MAP
                 writes a picture of a plane mesh as an SVG: each cell with the colour of its owner
  vtk SOURCE MESH --coords DAT --cells MAP
                 writes the mesh for VTK, as ParaView reads it, with a number on each cell
  from-gmsh FILE --scale S
                 writes the mesh text of the mesh of Gmsh in FILE, version 2.2 or 4.1, ASCII; each coordinate is the integer
                 nearest to the file's times S
  explain WORD ..
                 writes what a call of op2 with these words answers, and what it means; or what the error of a name means, as
                 of explain access 4. The words are op2's, its options with them

Options of draw and vtk
  --coords DAT   the dat that has the coordinates of the nodes, two or three for each
  --cells MAP    the map that leads from each cell to its nodes
  --halos R      shows what rank R has of the cells in place of their owners
  --colours S    shows the block colours of the loop with number S in place of the owners
  --output FILE  of vtk: with what a run, whose output FILE holds, printed last of each dat on the cells and the nodes

Options of owners
  --metis F      the file F has the rank of each element of SET, a line for each, as METIS writes
  --set SET

Option of stat
  --plain        for scripts: a line for each loop, with no heads and no legend

Options of owners, stat, draw and vtk
  --ranks N      these six as for op2, see op2 --help: how many ranks there are, who owns which element, new numbers, and
  --parts RULE   the blocks and colours of the plan; the last three change no owner
  --partition F
  --renumber MAP
  --block N
  --plan F

Options of from-gmsh
  --scale S      from 1 to 4294967295
  --dim D        2 for a plane mesh, 3 for one of space; without it what the file's elements have
  --source       writes a program that declares all of the mesh and prints sums, in place of the mesh text

Options that stand alone
  -h, --help     writes this text
  -V, --version  writes the version

Statuses
  0              all is well
  2              the words are none of these
  20             what the job reads is refused
  others         as of op2, with its line
";

/// What `--version` writes.
pub const VERSION: &str = "op2-tools 0.1.0\n";
