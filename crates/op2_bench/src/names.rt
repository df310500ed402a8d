// Reading a source, and resolving its names again and again.

use c_reader::read_program;
use name_resolution::resolve;
use op_outside::{FileShelf, read_whole};
use std::alloc::Global;

// The most bytes that a source has.
const MOST: u64 = 1 << 20;

// How many kernels and constants a source has, where its names are resolved so many times.
fn counts(alloc: Global, source: &[u8], times: u32) -> Option<(usize, usize)> {
    if source.len() as u64 > MOST {
        return None;
    }
    let program = read_program(alloc, source).ok()?;
    let mut counts = (0, 0);
    for _ in 0..times {
        let resolved = resolve(alloc, &program).ok()?;
        counts = (resolved.kernels.len(), resolved.consts.len());
    }
    Some(counts)
}

/// How many kernels and constants the source of that file has, where its names are resolved so many times; `None` where
/// it is no source.
pub fn counts_of(rt: HostRuntime, source: &str, times: u32) -> Option<(usize, usize)> {
    let mut shelf = FileShelf::new(rt);
    let source = read_whole(rt.alloc(), &mut shelf, source, MOST).ok()?;
    counts(rt.alloc(), &source, times)
}
