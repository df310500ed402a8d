// A call over files and outputs that never fail.

use crate::gates::{BUMP, TOGETHER, TWO};
use op_outside::{SureShelf, SureSink};
use op2_command::op2;
use std::alloc::{AllocError, Global};
use std::test::Fail;

// Words, the program's name first.
fn words_of(alloc: Global, words: &[&str]) -> Result<Vec<String>, AllocError> {
    let mut all = Vec::new(alloc);
    for word in words {
        all.push(String::from_str(alloc, word)?)?;
    }
    Ok(all)
}

// A shelf with a source, a mesh and a schedule.
fn shelf_of(alloc: Global) -> Result<SureShelf, AllocError> {
    let mut shelf = SureShelf::new(alloc);
    for (name, text) in [("s.c", BUMP), ("m.mesh", TWO), ("t", TOGETHER)] {
        let bytes = text.as_bytes().to_vec(alloc)?;
        shelf.hold(String::from_str(alloc, name)?, bytes)?;
    }
    Ok(shelf)
}

#[test]
fn nothing_fails_where_nothing_can(rt: HostRuntime) -> Result<(), Fail> {
    let alloc = rt.alloc();
    let words = words_of(alloc, &["op2", "run", "s.c", "m.mesh", "--schedule=t"])?;
    let mut shelf = shelf_of(alloc)?;
    let (mut out, mut err) = (SureSink::new(), SureSink::new());
    let status = op2(&rt, alloc, &words, &mut shelf, &mut out, &mut err);
    assert_eq!(rt; status, 0);
    Ok(())
}
