// What is shown of the tree of a source are the kinds of the source's tokens.

use c_reader::read_program;
use c_show::show;
use c_tree::{Kind, Token, lex};
use std::alloc::Global;
use std::test::Fail;

// Every form of the language.
const EVERY_FORM: &str = r#"extern int n; extern int a[];
int t = 1, u, v[3];
const int c = 2, e = c;
static inline void f(const int *p, int *q) {
  int x, y = 1, z[2]; { } ; x = 1; x += 2; x -= 1; x *= 2; x /= 1; x %= 3; x <<= 1; x >>= 1; x &= 3; x |= 4; x ^= 5;
  z[0] = p[0]; *q = *p; if (x) y = 1; if (x == y) y = 2; else { y = 3; } for (int i = 0; i < 4; i++) z[i % 2] = i;
}
inline void g(int *p) {
  p[0] = -1 + +2 - !3 * ~4 / 5 % 6 << 7 >> 8 < 9 > 10 <= 11 >= 12 == 13 != 14 & 15 ^ 16 | 17 && 18 || 19
    ? MIN(1, 2) : MAX(3, ABS((4)));
}
int main(int argc, char *argv[]) {
  ; { } const int k = 1; int w = n; w = 2; if (w) w = 3; else w = 4; if (k) { } for (int i = 0; i < n; i++) { w += i; }
  op_init(argc, argv, 1);
  op_set s = op_decl_set(n, "s"); op_map m = op_decl_map(s, s, 1, a, "m"); op_dat d = op_decl_dat(s, 1, "int", a, "d");
  op_decl_const(1, "int", &t); op_decl_const(3, "int", v);
  op_par_loop(f, "f", s, op_arg_dat(d, -1, OP_ID, 1, "int", OP_READ), op_arg_dat(d, 0, m, 1, "int", OP_WRITE),
    op_arg_gbl(&w, 1, "int", OP_INC), op_arg_gbl(v, 3, "int", OP_MIN));
  op_par_loop(g, "g", s, op_arg_dat(d, -1, OP_ID, 1, "int", OP_RW), op_arg_gbl(&w, 1, "int", OP_MAX));
  op_printf("%d %d\n", w, 1 + 2); op_printf("x"); op_print_dat_to_txtfile(d, "d");
  op_exit(); return 0;
}
"#;

fn are_kinds_of(kinds: &[Kind], tokens: &[Token]) -> bool {
    for (kind, token) in kinds.iter().zip(tokens) {
        if *kind != token.kind {
            return false;
        }
    }
    kinds.len() == tokens.len()
}

/// Whether the tree of a source shows the kinds of its tokens.
pub fn shows_its_tokens(alloc: Global, source: &str) -> bool {
    if source.len() > 1048576 {
        return false;
    }
    let Ok(program) = read_program(alloc, source.as_bytes()) else {
        return false;
    };
    let Ok(tokens) = lex(alloc, source.as_bytes()) else {
        return false;
    };
    match show(alloc, &program) {
        Ok(kinds) => are_kinds_of(&kinds, &tokens),
        Err(_) => false,
    }
}

#[test]
fn every_form_is_shown(rt: HostRuntime) -> Result<(), Fail> {
    let alloc = rt.alloc();
    for source in [
        EVERY_FORM,
        "int main(int argc, char **argv) { op_exit(); }",
        "int main(int argc, char *argv[]) { op_exit(); return 0; }",
    ] {
        assert!(rt; shows_its_tokens(alloc, source), "{source}");
    }
    Ok(())
}
