// The deepest source goes through reading, names, accesses and code on small stacks.

use crate::shown::shows_its_tokens;
use access_check::{Mode, are_small, check};
use c_reader::read_program;
use kernel_code::{compile, run_on};
use kernel_model::types::views::Place;
use kernel_model::types::{RKernel, is_resolved};
use name_resolution::resolve;
use op_num::reductions::Access;
use std::alloc::{AllocError, Global};
use std::test::Fail;
use std::thread::Builder;

// 0, then for each level a chain of 128 operators in parentheses, whose leftmost operand is the level below.
fn deep(alloc: Global, levels: usize) -> Result<String, AllocError> {
    let mut text = String::new(alloc);
    for _ in 0..levels {
        text.push('(')?;
    }
    text.push('0')?;
    for _ in 0..levels {
        for _ in 0..128 {
            text.push_str(" - 0")?;
        }
        text.push(')')?;
    }
    Ok(text)
}

// A source whose kernel has these texts in a row as its body.
fn source(alloc: Global, body: &[&str]) -> Result<String, AllocError> {
    let mut text = String::from_str(alloc, "void k(int *a) { ")?;
    for part in body {
        text.push_str(part)?;
    }
    text.push_str(" } int main(int argc, char **argv) { op_exit(); }")?;
    Ok(text)
}

// A kernel that stores a value, as deep as a source may be.
fn deepest(alloc: Global) -> Result<String, AllocError> {
    let value = deep(alloc, 61)?;
    source(alloc, &["a[0] = ", value.as_str(), ";"])
}

// A kernel that stores a minimum of a value and of an element whose index is as deep as a source may be.
fn deepest_least(alloc: Global) -> Result<String, AllocError> {
    let index = deep(alloc, 59)?;
    source(
        alloc,
        &["a[", index.as_str(), "] = MIN(1, a[", index.as_str(), "]);"],
    )
}

// The kernel of a source, where it has one alone.
fn kernel_of(alloc: Global, source: &str) -> Option<RKernel> {
    if source.len() > 1048576 {
        return None;
    }
    let program = read_program(alloc, source.as_bytes()).ok()?;
    resolve(alloc, &program).ok()?.kernels.pop()
}

// What the kernel of a source leaves in a cell that holds 5.
fn left_by(alloc: Global, source: &str) -> Option<i32> {
    let kernel = kernel_of(alloc, source)?;
    let code = compile(alloc, &kernel).ok()?;
    let places = [Place { from: 0, count: 1 }];
    let mut cells = [5];
    let mut scratch = [0; 80];
    if kernel.params == 1 && code.slots <= 80 && is_resolved(&kernel, 0) {
        run_on(&code, &mut cells, &places, &[], &mut scratch).ok()?;
    }
    Some(cells[0])
}

// Whether the kernel of a source obeys OP_MIN.
fn obeys(alloc: Global, source: &str) -> Option<bool> {
    let kernel = kernel_of(alloc, source)?;
    let modes = [Mode {
        access: Access::Min,
        dim: 1,
    }];
    if is_resolved(&kernel, 0) && kernel.params == 1 && are_small(&modes) {
        return Some(check(alloc, &kernel, &modes).is_ok());
    }
    None
}

#[test]
fn the_deepest_source_is_read_on_a_small_stack(rt: HostRuntime) -> Result<(), Fail> {
    let alloc = rt.alloc();
    let source = deepest(alloc)?;
    let small = Builder::new().stack_size(2 << 20);
    let reader = small.spawn(&rt, move || {
        shows_its_tokens(alloc, source.as_str()) && kernel_of(alloc, source.as_str()).is_some()
    })?;
    assert!(rt; reader.join(&rt));
    Ok(())
}

// Built for `rt try`, frames are larger and don't fit 2 MiB.
#[test]
fn the_deepest_kernel_runs_on_a_small_stack(rt: HostRuntime) -> Result<(), Fail> {
    let alloc = rt.alloc();
    let source = deepest(alloc)?;
    let small = Builder::new().stack_size(2 << 20);
    let runner = small.spawn(&rt, move || left_by(alloc, source.as_str()))?;
    assert_eq!(rt; runner.join(&rt), Some(0));
    Ok(())
}

// On a stack of 8 MiB, as programs mostly have.
#[test]
fn the_deepest_kernel_is_checked_on_a_usual_stack(rt: HostRuntime) -> Result<(), Fail> {
    let alloc = rt.alloc();
    let source = deepest_least(alloc)?;
    let usual = Builder::new().stack_size(8 << 20);
    let checker = usual.spawn(&rt, move || obeys(alloc, source.as_str()))?;
    assert_eq!(rt; checker.join(&rt), Some(true));
    Ok(())
}
