// The text of a small grid, written by hand, and the sizes that are refused.

use mesh_gen::{SampleRefusal, sample};
use std::test::Fail;

const TWO: &str = "op2mesh 1
int nnode 9
int ncell 4
int nedge 4
int nbedge 8
ints cell 16
0 1 4 3 1 2 5 4 3 4 7 6 4 5 8 7
ints ecell 8
0 1 2 3 0 2 1 3
ints bcell 8
0 1 2 3 0 2 1 3
ints wall0 8
1 1 -1 -1 0 0 0 0
ints x0 18
0 0 1 0 2 0 0 1 1 1 2 1 0 2 1 2 2 2
ints q0 4
0 1 1 2
ints zero 4
0 0 0 0
done
";

#[test]
fn grids_have_their_texts(rt: HostRuntime) -> Result<(), Fail> {
    assert_eq!(rt; sample(rt.alloc(), 2)?.mesh.as_slice(), TWO.as_bytes());
    assert_eq!(rt; sample(rt.alloc(), 200)?.mesh.len(), 2348228);
    for n in [0, 201, 4294967295] {
        assert_eq!(rt; sample(rt.alloc(), n).err(), Some(SampleRefusal::SizeRange));
    }
    Ok(())
}
