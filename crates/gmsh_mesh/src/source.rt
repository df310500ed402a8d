// Programs that declare all of a mesh and print sums, one for each shape of cells.
ghost use Rattle.std.specs.Prelude.{◌≡◌};
ghost use Rattle.gmsh_mesh.specs.Source.{source_text};

use crate::cell_sides::Shape;

/// The program for a mesh of triangles.
pub const TRIANGLE_SOURCE: &str =
    r#"// Declares all of a mesh of triangles, and prints how many there are of each set and sums over them.
extern int nnode;
extern int ncell;
extern int nface;
extern int nbface;
extern int x[];
extern int cell[];
extern int face[];
extern int fcell[];
extern int bface[];
extern int bcell[];
extern int btag[];
void at_node(const int *p, int *s) {
  s[0] += p[0];
  s[1] += p[1];
}
void at_cell(const int *p0, const int *p1, const int *p2, int *s) {
  s[0] += p0[0] + p1[0] + p2[0];
  s[1] += p0[1] + p1[1] + p2[1];
}
void at_face(const int *p0, const int *p1, int *s) {
  s[0] += p0[0] + p1[0];
  s[1] += p0[1] + p1[1];
}
void at_tag(const int *t, int *n, int *s) {
  n[0] += t[0] != 0;
  s[0] += t[0];
}
int main(int argc, char **argv) {
  op_init(argc, argv, 1);
  op_set nodes = op_decl_set(nnode, "nodes");
  op_set cells = op_decl_set(ncell, "cells");
  op_set faces = op_decl_set(nface, "faces");
  op_set bfaces = op_decl_set(nbface, "bfaces");
  op_map pcell = op_decl_map(cells, nodes, 3, cell, "pcell");
  op_map pface = op_decl_map(faces, nodes, 2, face, "pface");
  op_map pfcell = op_decl_map(faces, cells, 2, fcell, "pfcell");
  op_map pbface = op_decl_map(bfaces, nodes, 2, bface, "pbface");
  op_map pbcell = op_decl_map(bfaces, cells, 1, bcell, "pbcell");
  op_dat coords = op_decl_dat(nodes, 2, "int", x, "coords");
  op_dat tags = op_decl_dat(bfaces, 1, "int", btag, "tags");
  int nodes_sum[2];
  nodes_sum[0] = 0;
  nodes_sum[1] = 0;
  int cells_sum[2];
  cells_sum[0] = 0;
  cells_sum[1] = 0;
  int faces_sum[2];
  faces_sum[0] = 0;
  faces_sum[1] = 0;
  int boundary_sum[2];
  boundary_sum[0] = 0;
  boundary_sum[1] = 0;
  int tagged = 0, tag_sum = 0;
  op_par_loop(at_node, "at_node", nodes,
      op_arg_dat(coords, -1, OP_ID, 2, "int", OP_READ),
      op_arg_gbl(nodes_sum, 2, "int", OP_INC));
  op_par_loop(at_cell, "at_cell", cells,
      op_arg_dat(coords, 0, pcell, 2, "int", OP_READ),
      op_arg_dat(coords, 1, pcell, 2, "int", OP_READ),
      op_arg_dat(coords, 2, pcell, 2, "int", OP_READ),
      op_arg_gbl(cells_sum, 2, "int", OP_INC));
  op_par_loop(at_face, "at_face", faces,
      op_arg_dat(coords, 0, pface, 2, "int", OP_READ),
      op_arg_dat(coords, 1, pface, 2, "int", OP_READ),
      op_arg_gbl(faces_sum, 2, "int", OP_INC));
  op_par_loop(at_face, "at_bface", bfaces,
      op_arg_dat(coords, 0, pbface, 2, "int", OP_READ),
      op_arg_dat(coords, 1, pbface, 2, "int", OP_READ),
      op_arg_gbl(boundary_sum, 2, "int", OP_INC));
  op_par_loop(at_tag, "at_tag", bfaces,
      op_arg_dat(tags, -1, OP_ID, 1, "int", OP_READ),
      op_arg_gbl(&tagged, 1, "int", OP_INC),
      op_arg_gbl(&tag_sum, 1, "int", OP_INC));
  op_printf("%d nodes, %d cells, %d faces, %d at the boundary\n", nnode, ncell, nface, nbface);
  op_printf("nodes %d %d\n", nodes_sum[0], nodes_sum[1]);
  op_printf("cells %d %d\n", cells_sum[0], cells_sum[1]);
  op_printf("faces %d %d\n", faces_sum[0], faces_sum[1]);
  op_printf("boundary %d %d\n", boundary_sum[0], boundary_sum[1]);
  op_printf("%d in groups, of tags %d\n", tagged, tag_sum);
  op_exit();
}
"#;

/// The program for a mesh of quadrangles.
pub const QUADRANGLE_SOURCE: &str =
    r#"// Declares all of a mesh of quadrangles, and prints how many there are of each set and sums over them.
extern int nnode;
extern int ncell;
extern int nface;
extern int nbface;
extern int x[];
extern int cell[];
extern int face[];
extern int fcell[];
extern int bface[];
extern int bcell[];
extern int btag[];
void at_node(const int *p, int *s) {
  s[0] += p[0];
  s[1] += p[1];
}
void at_cell(const int *p0, const int *p1, const int *p2, const int *p3, int *s) {
  s[0] += p0[0] + p1[0] + p2[0] + p3[0];
  s[1] += p0[1] + p1[1] + p2[1] + p3[1];
}
void at_face(const int *p0, const int *p1, int *s) {
  s[0] += p0[0] + p1[0];
  s[1] += p0[1] + p1[1];
}
void at_tag(const int *t, int *n, int *s) {
  n[0] += t[0] != 0;
  s[0] += t[0];
}
int main(int argc, char **argv) {
  op_init(argc, argv, 1);
  op_set nodes = op_decl_set(nnode, "nodes");
  op_set cells = op_decl_set(ncell, "cells");
  op_set faces = op_decl_set(nface, "faces");
  op_set bfaces = op_decl_set(nbface, "bfaces");
  op_map pcell = op_decl_map(cells, nodes, 4, cell, "pcell");
  op_map pface = op_decl_map(faces, nodes, 2, face, "pface");
  op_map pfcell = op_decl_map(faces, cells, 2, fcell, "pfcell");
  op_map pbface = op_decl_map(bfaces, nodes, 2, bface, "pbface");
  op_map pbcell = op_decl_map(bfaces, cells, 1, bcell, "pbcell");
  op_dat coords = op_decl_dat(nodes, 2, "int", x, "coords");
  op_dat tags = op_decl_dat(bfaces, 1, "int", btag, "tags");
  int nodes_sum[2];
  nodes_sum[0] = 0;
  nodes_sum[1] = 0;
  int cells_sum[2];
  cells_sum[0] = 0;
  cells_sum[1] = 0;
  int faces_sum[2];
  faces_sum[0] = 0;
  faces_sum[1] = 0;
  int boundary_sum[2];
  boundary_sum[0] = 0;
  boundary_sum[1] = 0;
  int tagged = 0, tag_sum = 0;
  op_par_loop(at_node, "at_node", nodes,
      op_arg_dat(coords, -1, OP_ID, 2, "int", OP_READ),
      op_arg_gbl(nodes_sum, 2, "int", OP_INC));
  op_par_loop(at_cell, "at_cell", cells,
      op_arg_dat(coords, 0, pcell, 2, "int", OP_READ),
      op_arg_dat(coords, 1, pcell, 2, "int", OP_READ),
      op_arg_dat(coords, 2, pcell, 2, "int", OP_READ),
      op_arg_dat(coords, 3, pcell, 2, "int", OP_READ),
      op_arg_gbl(cells_sum, 2, "int", OP_INC));
  op_par_loop(at_face, "at_face", faces,
      op_arg_dat(coords, 0, pface, 2, "int", OP_READ),
      op_arg_dat(coords, 1, pface, 2, "int", OP_READ),
      op_arg_gbl(faces_sum, 2, "int", OP_INC));
  op_par_loop(at_face, "at_bface", bfaces,
      op_arg_dat(coords, 0, pbface, 2, "int", OP_READ),
      op_arg_dat(coords, 1, pbface, 2, "int", OP_READ),
      op_arg_gbl(boundary_sum, 2, "int", OP_INC));
  op_par_loop(at_tag, "at_tag", bfaces,
      op_arg_dat(tags, -1, OP_ID, 1, "int", OP_READ),
      op_arg_gbl(&tagged, 1, "int", OP_INC),
      op_arg_gbl(&tag_sum, 1, "int", OP_INC));
  op_printf("%d nodes, %d cells, %d faces, %d at the boundary\n", nnode, ncell, nface, nbface);
  op_printf("nodes %d %d\n", nodes_sum[0], nodes_sum[1]);
  op_printf("cells %d %d\n", cells_sum[0], cells_sum[1]);
  op_printf("faces %d %d\n", faces_sum[0], faces_sum[1]);
  op_printf("boundary %d %d\n", boundary_sum[0], boundary_sum[1]);
  op_printf("%d in groups, of tags %d\n", tagged, tag_sum);
  op_exit();
}
"#;

/// The program for a mesh of tetrahedra.
pub const TETRAHEDRON_SOURCE: &str =
    r#"// Declares all of a mesh of tetrahedra, and prints how many there are of each set and sums over them.
extern int nnode;
extern int ncell;
extern int nface;
extern int nbface;
extern int x[];
extern int cell[];
extern int face[];
extern int fcell[];
extern int bface[];
extern int bcell[];
extern int btag[];
void at_node(const int *p, int *s) {
  s[0] += p[0];
  s[1] += p[1];
  s[2] += p[2];
}
void at_cell(const int *p0, const int *p1, const int *p2, const int *p3, int *s) {
  s[0] += p0[0] + p1[0] + p2[0] + p3[0];
  s[1] += p0[1] + p1[1] + p2[1] + p3[1];
  s[2] += p0[2] + p1[2] + p2[2] + p3[2];
}
void at_face(const int *p0, const int *p1, const int *p2, int *s) {
  s[0] += p0[0] + p1[0] + p2[0];
  s[1] += p0[1] + p1[1] + p2[1];
  s[2] += p0[2] + p1[2] + p2[2];
}
void at_tag(const int *t, int *n, int *s) {
  n[0] += t[0] != 0;
  s[0] += t[0];
}
int main(int argc, char **argv) {
  op_init(argc, argv, 1);
  op_set nodes = op_decl_set(nnode, "nodes");
  op_set cells = op_decl_set(ncell, "cells");
  op_set faces = op_decl_set(nface, "faces");
  op_set bfaces = op_decl_set(nbface, "bfaces");
  op_map pcell = op_decl_map(cells, nodes, 4, cell, "pcell");
  op_map pface = op_decl_map(faces, nodes, 3, face, "pface");
  op_map pfcell = op_decl_map(faces, cells, 2, fcell, "pfcell");
  op_map pbface = op_decl_map(bfaces, nodes, 3, bface, "pbface");
  op_map pbcell = op_decl_map(bfaces, cells, 1, bcell, "pbcell");
  op_dat coords = op_decl_dat(nodes, 3, "int", x, "coords");
  op_dat tags = op_decl_dat(bfaces, 1, "int", btag, "tags");
  int nodes_sum[3];
  nodes_sum[0] = 0;
  nodes_sum[1] = 0;
  nodes_sum[2] = 0;
  int cells_sum[3];
  cells_sum[0] = 0;
  cells_sum[1] = 0;
  cells_sum[2] = 0;
  int faces_sum[3];
  faces_sum[0] = 0;
  faces_sum[1] = 0;
  faces_sum[2] = 0;
  int boundary_sum[3];
  boundary_sum[0] = 0;
  boundary_sum[1] = 0;
  boundary_sum[2] = 0;
  int tagged = 0, tag_sum = 0;
  op_par_loop(at_node, "at_node", nodes,
      op_arg_dat(coords, -1, OP_ID, 3, "int", OP_READ),
      op_arg_gbl(nodes_sum, 3, "int", OP_INC));
  op_par_loop(at_cell, "at_cell", cells,
      op_arg_dat(coords, 0, pcell, 3, "int", OP_READ),
      op_arg_dat(coords, 1, pcell, 3, "int", OP_READ),
      op_arg_dat(coords, 2, pcell, 3, "int", OP_READ),
      op_arg_dat(coords, 3, pcell, 3, "int", OP_READ),
      op_arg_gbl(cells_sum, 3, "int", OP_INC));
  op_par_loop(at_face, "at_face", faces,
      op_arg_dat(coords, 0, pface, 3, "int", OP_READ),
      op_arg_dat(coords, 1, pface, 3, "int", OP_READ),
      op_arg_dat(coords, 2, pface, 3, "int", OP_READ),
      op_arg_gbl(faces_sum, 3, "int", OP_INC));
  op_par_loop(at_face, "at_bface", bfaces,
      op_arg_dat(coords, 0, pbface, 3, "int", OP_READ),
      op_arg_dat(coords, 1, pbface, 3, "int", OP_READ),
      op_arg_dat(coords, 2, pbface, 3, "int", OP_READ),
      op_arg_gbl(boundary_sum, 3, "int", OP_INC));
  op_par_loop(at_tag, "at_tag", bfaces,
      op_arg_dat(tags, -1, OP_ID, 1, "int", OP_READ),
      op_arg_gbl(&tagged, 1, "int", OP_INC),
      op_arg_gbl(&tag_sum, 1, "int", OP_INC));
  op_printf("%d nodes, %d cells, %d faces, %d at the boundary\n", nnode, ncell, nface, nbface);
  op_printf("nodes %d %d %d\n", nodes_sum[0], nodes_sum[1], nodes_sum[2]);
  op_printf("cells %d %d %d\n", cells_sum[0], cells_sum[1], cells_sum[2]);
  op_printf("faces %d %d %d\n", faces_sum[0], faces_sum[1], faces_sum[2]);
  op_printf("boundary %d %d %d\n", boundary_sum[0], boundary_sum[1], boundary_sum[2]);
  op_printf("%d in groups, of tags %d\n", tagged, tag_sum);
  op_exit();
}
"#;

/// The program for a mesh of hexahedra.
pub const HEXAHEDRON_SOURCE: &str =
    r#"// Declares all of a mesh of hexahedra, and prints how many there are of each set and sums over them.
extern int nnode;
extern int ncell;
extern int nface;
extern int nbface;
extern int x[];
extern int cell[];
extern int face[];
extern int fcell[];
extern int bface[];
extern int bcell[];
extern int btag[];
void at_node(const int *p, int *s) {
  s[0] += p[0];
  s[1] += p[1];
  s[2] += p[2];
}
void at_cell(const int *p0, const int *p1, const int *p2, const int *p3, const int *p4,
    const int *p5, const int *p6, const int *p7, int *s) {
  s[0] += p0[0] + p1[0] + p2[0] + p3[0] + p4[0] + p5[0] + p6[0] + p7[0];
  s[1] += p0[1] + p1[1] + p2[1] + p3[1] + p4[1] + p5[1] + p6[1] + p7[1];
  s[2] += p0[2] + p1[2] + p2[2] + p3[2] + p4[2] + p5[2] + p6[2] + p7[2];
}
void at_face(const int *p0, const int *p1, const int *p2, const int *p3, int *s) {
  s[0] += p0[0] + p1[0] + p2[0] + p3[0];
  s[1] += p0[1] + p1[1] + p2[1] + p3[1];
  s[2] += p0[2] + p1[2] + p2[2] + p3[2];
}
void at_tag(const int *t, int *n, int *s) {
  n[0] += t[0] != 0;
  s[0] += t[0];
}
int main(int argc, char **argv) {
  op_init(argc, argv, 1);
  op_set nodes = op_decl_set(nnode, "nodes");
  op_set cells = op_decl_set(ncell, "cells");
  op_set faces = op_decl_set(nface, "faces");
  op_set bfaces = op_decl_set(nbface, "bfaces");
  op_map pcell = op_decl_map(cells, nodes, 8, cell, "pcell");
  op_map pface = op_decl_map(faces, nodes, 4, face, "pface");
  op_map pfcell = op_decl_map(faces, cells, 2, fcell, "pfcell");
  op_map pbface = op_decl_map(bfaces, nodes, 4, bface, "pbface");
  op_map pbcell = op_decl_map(bfaces, cells, 1, bcell, "pbcell");
  op_dat coords = op_decl_dat(nodes, 3, "int", x, "coords");
  op_dat tags = op_decl_dat(bfaces, 1, "int", btag, "tags");
  int nodes_sum[3];
  nodes_sum[0] = 0;
  nodes_sum[1] = 0;
  nodes_sum[2] = 0;
  int cells_sum[3];
  cells_sum[0] = 0;
  cells_sum[1] = 0;
  cells_sum[2] = 0;
  int faces_sum[3];
  faces_sum[0] = 0;
  faces_sum[1] = 0;
  faces_sum[2] = 0;
  int boundary_sum[3];
  boundary_sum[0] = 0;
  boundary_sum[1] = 0;
  boundary_sum[2] = 0;
  int tagged = 0, tag_sum = 0;
  op_par_loop(at_node, "at_node", nodes,
      op_arg_dat(coords, -1, OP_ID, 3, "int", OP_READ),
      op_arg_gbl(nodes_sum, 3, "int", OP_INC));
  op_par_loop(at_cell, "at_cell", cells,
      op_arg_dat(coords, 0, pcell, 3, "int", OP_READ),
      op_arg_dat(coords, 1, pcell, 3, "int", OP_READ),
      op_arg_dat(coords, 2, pcell, 3, "int", OP_READ),
      op_arg_dat(coords, 3, pcell, 3, "int", OP_READ),
      op_arg_dat(coords, 4, pcell, 3, "int", OP_READ),
      op_arg_dat(coords, 5, pcell, 3, "int", OP_READ),
      op_arg_dat(coords, 6, pcell, 3, "int", OP_READ),
      op_arg_dat(coords, 7, pcell, 3, "int", OP_READ),
      op_arg_gbl(cells_sum, 3, "int", OP_INC));
  op_par_loop(at_face, "at_face", faces,
      op_arg_dat(coords, 0, pface, 3, "int", OP_READ),
      op_arg_dat(coords, 1, pface, 3, "int", OP_READ),
      op_arg_dat(coords, 2, pface, 3, "int", OP_READ),
      op_arg_dat(coords, 3, pface, 3, "int", OP_READ),
      op_arg_gbl(faces_sum, 3, "int", OP_INC));
  op_par_loop(at_face, "at_bface", bfaces,
      op_arg_dat(coords, 0, pbface, 3, "int", OP_READ),
      op_arg_dat(coords, 1, pbface, 3, "int", OP_READ),
      op_arg_dat(coords, 2, pbface, 3, "int", OP_READ),
      op_arg_dat(coords, 3, pbface, 3, "int", OP_READ),
      op_arg_gbl(boundary_sum, 3, "int", OP_INC));
  op_par_loop(at_tag, "at_tag", bfaces,
      op_arg_dat(tags, -1, OP_ID, 1, "int", OP_READ),
      op_arg_gbl(&tagged, 1, "int", OP_INC),
      op_arg_gbl(&tag_sum, 1, "int", OP_INC));
  op_printf("%d nodes, %d cells, %d faces, %d at the boundary\n", nnode, ncell, nface, nbface);
  op_printf("nodes %d %d %d\n", nodes_sum[0], nodes_sum[1], nodes_sum[2]);
  op_printf("cells %d %d %d\n", cells_sum[0], cells_sum[1], cells_sum[2]);
  op_printf("faces %d %d %d\n", faces_sum[0], faces_sum[1], faces_sum[2]);
  op_printf("boundary %d %d %d\n", boundary_sum[0], boundary_sum[1], boundary_sum[2]);
  op_printf("%d in groups, of tags %d\n", tagged, tag_sum);
  op_exit();
}
"#;

// The program for a mesh of cells of this shape: it declares all sets, maps and dats of the mesh, and prints how many
// there are, and the sums of the coordinates at nodes, cells, faces and the boundary, and of the physical tags.
pub(crate) fn mesh_source(shape: Shape) -> &'static str
    ensures { result.now ≡ source_text shape }
{
    match shape {
        Shape::Triangle => TRIANGLE_SOURCE,
        Shape::Quadrangle => QUADRANGLE_SOURCE,
        Shape::Tetrahedron => TETRAHEDRON_SOURCE,
        Shape::Hexahedron => HEXAHEDRON_SOURCE,
    }
}
