// Kernels whose faults come before their stores, and others.

use c_reader::read_program;
use kernel_model::fault_order::faults_first;
use name_resolution::resolve;
use std::alloc::Global;
use std::test::Fail;

// The first line of each source: a kernel's parameters.
const HEAD: &str =
    "void k(const int *a, const int *b, const int *c, const int *d, int *r, int *s) {";

// The body of a kernel, how many components its arguments have, and whether its faults come first.
const BODIES: [(&str, [u32; 6], bool); 20] = [
    (
        "int f = (a[0] - b[0]) / (c[0] + d[0]); r[0] -= f; s[0] += f;",
        [1, 1, 1, 1, 1, 1],
        true,
    ),
    (
        "int f = (a[0] - b[0]) / (c[0] + d[0]); r[0] -= f; s[0] += f;",
        [1, 1, 1, 1, 1, 0],
        false,
    ),
    ("r[0] = 9; r[0] = 0;", [1, 1, 1, 1, 1, 1], true),
    ("r[0] = 9; r[0] *= 0;", [1, 1, 1, 1, 1, 1], true),
    ("r[0] = 9; r[0] /= 2;", [1, 1, 1, 1, 1, 1], true),
    ("r[0] = 9; r[0] /= 0;", [1, 1, 1, 1, 1, 1], false),
    ("r[0] = 9; r[0] %= 1;", [1, 1, 1, 1, 1, 1], true),
    ("r[0] = 9; r[0] %= 0;", [1, 1, 1, 1, 1, 1], false),
    ("r[0] = 9; r[0] <<= 31;", [1, 1, 1, 1, 1, 1], true),
    ("r[0] = 9; r[0] <<= 32;", [1, 1, 1, 1, 1, 1], false),
    ("r[0] = 9; r[0] >>= 0;", [1, 1, 1, 1, 1, 1], true),
    ("r[0] = 9; r[0] >>= -1;", [1, 1, 1, 1, 1, 1], false),
    ("r[0] = 9; r[0] = 1 / r[0];", [1, 1, 1, 1, 1, 1], false),
    (
        "int l = 0; r[0] = 9; r[0] += r[l];",
        [1, 1, 1, 1, 4, 1],
        false,
    ),
    ("int l = 0; r[l] = 1;", [1, 1, 1, 1, 4, 1], true),
    (
        "if (r[0]) r[0] = 1; else r[0] = 2 / r[0];",
        [1, 1, 1, 1, 1, 1],
        true,
    ),
    (
        "int f = 1; if (r[0]) f = 2; else r[0] = 2 / r[0]; f = a[0] / b[0];",
        [1, 1, 1, 1, 1, 1],
        false,
    ),
    (
        "int l = 0; for (int i = 0; i < 2; i++) l += a[i]; r[0] = l;",
        [2, 1, 1, 1, 1, 1],
        true,
    ),
    (
        "for (int i = 0; i < 2; i++) r[i] += 1;",
        [1, 1, 1, 1, 2, 1],
        false,
    ),
    (
        "for (int i = 0; i < 2; i++) r[0] += 1;",
        [1, 1, 1, 1, 1, 1],
        true,
    ),
];

// Whether the faults of the kernel of a source come first, where it has one kernel.
fn judged(alloc: Global, source: &str, counts: &[u32]) -> Option<bool> {
    if source.len() > 1048576 {
        return None;
    }
    let program = read_program(alloc, source.as_bytes()).ok()?;
    let resolved = resolve(alloc, &program).ok()?;
    match resolved.kernels.as_slice() {
        [kernel] => Some(faults_first(kernel, counts)),
        _ => None,
    }
}

#[test]
fn faults_come_first(rt: HostRuntime) -> Result<(), Fail> {
    let alloc = rt.alloc();
    for (body, counts, expected) in BODIES {
        let source = format!(in alloc;
            "{HEAD} {body} }} int main(int argc, char **argv) {{ op_exit(); }}"
        )?;
        assert_eq!(rt;
            judged(alloc, source.as_str(), counts.as_slice()),
            Some(expected),
            "{body}"
        );
    }
    Ok(())
}
