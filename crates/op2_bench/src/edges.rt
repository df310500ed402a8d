// The arrays of the cells, and the loop over the edges.

ghost use Rattle.std.specs.Prelude.{◌≡◌, ◌<◌, ◌≤◌, ◌^◌};
ghost use Rattle.kernel_model.specs.Resolved.{IsResolved};
ghost use Rattle.kernel_code.specs.Coded.{IsCode};

use crate::flux::flux;
use kernel_code::{Code, compile, run_on};
use kernel_model::types::is_resolved;
use kernel_model::types::views::{Place, are_places_in};
use op_num::wrap_add;
use std::alloc::{AllocError, Global};

// The most edges.
const MOST: u32 = 1 << 28;

/// The arrays q, adt and res, one after another, each with so many cells.
pub fn filled(alloc: Global, cells: u32) -> Result<Vec<i32>, AllocError> {
    let mut memory = Vec::new(alloc);
    for i in 0..cells {
        memory.push((i % 1000) as i32 - 500)?;
    }
    for i in 0..cells {
        memory.push((i % 7) as i32 + 1)?;
    }
    for _ in 0..cells {
        memory.push(0)?;
    }
    Ok(memory)
}

fn places_of(a: u32, b: u32, cells: u32) -> [Place; 6] {
    let (a, b, cells) = (a as usize, b as usize, cells as usize);
    [
        Place { from: a, count: 1 },
        Place { from: b, count: 1 },
        Place {
            from: cells + a,
            count: 1,
        },
        Place {
            from: cells + b,
            count: 1,
        },
        Place {
            from: 2 * cells + a,
            count: 1,
        },
        Place {
            from: 2 * cells + b,
            count: 1,
        },
    ]
}

/// Runs the code of a kernel for each edge; how many edges had no fault.
pub fn run_edges(code: &Code<'_>, memory: &mut [i32], cells: u32, edges: u32) -> u32
    requires code { IsCode code.now }
    requires resolved { IsResolved 0 code.now.kernel.now }
    requires params { code.now.kernel.now.params ≡ 6 }
    requires slots { code.now.slots ≤ 8 }
    requires cells { 0 < cells }
{
    let mut done = 0u32;
    let mut scratch = [0; 8];
    for edge in 0..edges {
        let a = edge % cells;
        let b = (edge as u64 * 31 + 1) % cells as u64;
        let places = places_of(a, b as u32, cells);
        if are_places_in(&places, memory.len())
            && run_on(code, memory, &places, &[], &mut scratch).is_ok()
        {
            done = done.saturating_add(1);
        }
    }
    done
}

/// The sum of the cells from that one on, where it wraps.
pub fn sum_from(memory: &[i32], from: usize) -> i32 {
    let mut sum = 0;
    for cell in memory.iter().skip(from) {
        sum = wrap_add(sum, *cell);
    }
    sum
}

/// The number of edges of the flux kernel's loop that have no fault, and the sum of the residuals. `None` is want of
/// memory, or more than 2^28 edges.
pub fn flux_sum(alloc: Global, edges: u32) -> Option<(u32, i32)> {
    if edges > MOST {
        return None;
    }
    let cells = edges / 2 + 1;
    let kernel = flux(alloc).ok()?;
    let mut memory = filled(alloc, cells).ok()?;
    let code = compile(alloc, &kernel).ok()?;
    if !is_resolved(&kernel, 0) || kernel.params != 6 || code.slots > 8 {
        return None;
    }
    let done = run_edges(&code, &mut memory, cells, edges);
    Some((done, sum_from(&memory, 2 * cells as usize)))
}
