// The program of the sample.

/// A program in the manner of a solver around an airfoil: in each of ten steps it saves the values of the cells,
/// computes a local step from the corners of each cell, adds up what flows over each edge and each boundary edge, and
/// updates the cells; then it prints the total, the least and the greatest value, and the sum of all changes.
pub const SOURCE: &str = r#"extern int nnode;
extern int ncell;
extern int nedge;
extern int nbedge;
extern int cell[];
extern int ecell[];
extern int bcell[];
extern int wall0[];
extern int x0[];
extern int q0[];
extern int zero[];
void save(const int *q, int *old) { old[0] = q[0]; }
void area(const int *a, const int *b, const int *d, int *adt) { adt[0] = ABS(b[0] - a[0]) + ABS(d[1] - a[1]) + 1; }
void flux(const int *qa, const int *qb, const int *aa, const int *ab, int *ra, int *rb) { int f = (qa[0] - qb[0]) / (aa[0] + ab[0]); ra[0] -= f; rb[0] += f; }
void bound(const int *w, int *r) { r[0] += w[0]; }
void update(const int *old, int *q, int *r, int *change) { q[0] = old[0] + r[0]; *change += ABS(r[0]); r[0] = 0; }
void total(const int *q, int *s, int *l, int *h) { *s += q[0]; *l = MIN(*l, q[0]); *h = MAX(*h, q[0]); }
int main(int argc, char **argv) {
op_init(argc, argv, 1);
op_set nodes = op_decl_set(nnode, "nodes");
op_set cells = op_decl_set(ncell, "cells");
op_set edges = op_decl_set(nedge, "edges");
op_set bedges = op_decl_set(nbedge, "bedges");
op_map pcell = op_decl_map(cells, nodes, 4, cell, "pcell");
op_map pedge = op_decl_map(edges, cells, 2, ecell, "pedge");
op_map pbedge = op_decl_map(bedges, cells, 1, bcell, "pbedge");
op_dat x = op_decl_dat(nodes, 2, "int", x0, "x");
op_dat q = op_decl_dat(cells, 1, "int", q0, "q");
op_dat old = op_decl_dat(cells, 1, "int", zero, "old");
op_dat adt = op_decl_dat(cells, 1, "int", zero, "adt");
op_dat res = op_decl_dat(cells, 1, "int", zero, "res");
op_dat w = op_decl_dat(bedges, 1, "int", wall0, "w");
int change = 0, sum = 0, lo = 2147483647, hi = -2147483647;
for (int t = 0; t < 10; t++) {
op_par_loop(save, "save", cells, op_arg_dat(q, -1, OP_ID, 1, "int", OP_READ), op_arg_dat(old, -1, OP_ID, 1, "int", OP_WRITE));
op_par_loop(area, "area", cells, op_arg_dat(x, 0, pcell, 2, "int", OP_READ), op_arg_dat(x, 1, pcell, 2, "int", OP_READ), op_arg_dat(x, 3, pcell, 2, "int", OP_READ), op_arg_dat(adt, -1, OP_ID, 1, "int", OP_WRITE));
op_par_loop(flux, "flux", edges, op_arg_dat(q, 0, pedge, 1, "int", OP_READ), op_arg_dat(q, 1, pedge, 1, "int", OP_READ), op_arg_dat(adt, 0, pedge, 1, "int", OP_READ), op_arg_dat(adt, 1, pedge, 1, "int", OP_READ), op_arg_dat(res, 0, pedge, 1, "int", OP_INC), op_arg_dat(res, 1, pedge, 1, "int", OP_INC));
op_par_loop(bound, "bound", bedges, op_arg_dat(w, -1, OP_ID, 1, "int", OP_READ), op_arg_dat(res, 0, pbedge, 1, "int", OP_INC));
op_par_loop(update, "update", cells, op_arg_dat(old, -1, OP_ID, 1, "int", OP_READ), op_arg_dat(q, -1, OP_ID, 1, "int", OP_WRITE), op_arg_dat(res, -1, OP_ID, 1, "int", OP_RW), op_arg_gbl(&change, 1, "int", OP_INC));
}
op_par_loop(total, "total", cells, op_arg_dat(q, -1, OP_ID, 1, "int", OP_READ), op_arg_gbl(&sum, 1, "int", OP_INC), op_arg_gbl(&lo, 1, "int", OP_MIN), op_arg_gbl(&hi, 1, "int", OP_MAX));
op_printf("total %d\n", sum);
op_printf("min %d max %d\n", lo, hi);
op_printf("change %d\n", change);
op_exit();
}
"#;
