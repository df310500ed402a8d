// Owners from a text, for more ranks than a run may have.

use mesh_decl::Mesh;
use op_num::Name;
use partition::part_text::{PartRefusal, read_partition};
use std::alloc::Global;
use std::test::Fail;

// The ranks of three nodes, of 4294967295 ranks.
fn owners(alloc: Global, text: &[u8]) -> Result<Vec<u32>, PartRefusal> {
    if text.len() > 1000 {
        return Err(PartRefusal::OutOfMemory);
    }
    let mut mesh = Mesh::new(alloc);
    mesh.add_set(Name::new(Vec::from_slice(alloc, b"nodes")?), 3)?;
    let mut all = Vec::new(alloc);
    for set in read_partition(alloc, text, &mesh, 4294967295)?.sets {
        all.extend_from_slice(set.as_slice())?;
    }
    Ok(all)
}

#[test]
fn most_ranks_have_elements(rt: HostRuntime) -> Result<(), Fail> {
    let alloc = rt.alloc();
    let read = owners(alloc, b"op2part 1 set nodes 3 0 4294967294 1 done")?;
    assert_eq!(rt; read.as_slice(), [0, 4294967294, 1].as_slice());
    let refused = owners(alloc, b"op2part 1 set nodes 3 4294967295");
    assert_eq!(rt; refused.err(), Some(PartRefusal::RankRange { line: 1 }));
    Ok(())
}
