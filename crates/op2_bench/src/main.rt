//! Parts of `op2` alone, for the scripts in `bench/`. The first word is the job:
//!
//!     op2_bench flux [EDGES]
//!     op2_bench names SOURCE TIMES
//!     op2_bench grid SIDE RANKS [counts]
//!     op2_bench random EDGES CELLS DIM RANKS
//!
//! `flux` runs the compiled code of a flux kernel for EDGES edges (1,000,000 where none is told) in place on whole
//! arrays, and prints how many had no fault, and the sum of the residuals, which is 0. `names` reads a source and
//! resolves its names TIMES times. `grid` distributes a grid over ranks and prints how long each step takes: it has
//! SIDE times SIDE cells, SIDE 1 to 4096, and an edge between each two neighbours; RANKS is 1 to 64. With `counts`,
//! only what was made is printed, and no times. `random` does so for a mesh with DIM random cells for each edge; CELLS
//! is 1 to 16777216, DIM 1 to 64.
#![tactic(auto)]

mod edges;
mod flux;
mod grid;
mod names;
mod random;
mod steps;

use anyhow::{Error, bail};
use grid::grid;
use random::random;
use std::env;
use std::rt::Env;
use steps::run;

fn run_grid(rt: &HostRuntime, side: u32, ranks: u32, timed: bool) -> Result<(), Error> {
    if side == 0 || side > 4096 || ranks == 0 || ranks > 64 {
        bail!("SIDE is 1 to 4096, RANKS 1 to 64");
    }
    let mesh = grid(rt.alloc(), side)?;
    run(rt, &mesh, ranks, timed)
}

fn run_random(rt: &HostRuntime, edges: u32, cells: u32, dim: u32, ranks: u32) -> Result<(), Error> {
    if cells == 0 || cells > 16777216 || dim == 0 || dim > 64 || ranks == 0 || ranks > 64 {
        bail!("CELLS is 1 to 16777216, DIM 1 to 64, RANKS 1 to 64");
    }
    let mesh = random(rt.alloc(), edges, cells, dim)?;
    run(rt, &mesh, ranks, true)
}

fn run_flux(rt: &HostRuntime, edges: u32) -> Result<(), Error> {
    match edges::flux_sum(rt.alloc(), edges) {
        Some((done, sum)) => println!(rt; "{done} edges, residuals {sum}")?,
        None => bail!("out of memory"),
    }
    Ok(())
}

fn run_names(rt: HostRuntime, source: &str, times: u32) -> Result<(), Error> {
    match names::counts_of(rt, source, times) {
        Some((kernels, constants)) => println!(rt; "{kernels} kernels, {constants} constants")?,
        None => bail!("SOURCE is a source of at most 1 MiB"),
    }
    Ok(())
}

// A word as a number.
fn number(word: Option<String>) -> Result<u32, Error> {
    match word {
        Some(word) => Ok(word.parse::<u32>()?),
        None => bail!("a number is awaited"),
    }
}

fn main(rt: HostRuntime) -> Result<(), Error> {
    let mut words = env::args(&rt)?;
    let _program = words.next();
    let Some(job) = words.next() else {
        bail!("the first word is flux, names, grid or random");
    };
    let job = job.as_str();
    if job == "flux" {
        let edges = match words.next() {
            Some(word) => word.parse::<u32>()?,
            None => 1_000_000,
        };
        return run_flux(&rt, edges);
    }
    if job == "names" {
        let Some(source) = words.next() else {
            bail!("SOURCE and TIMES are awaited");
        };
        return run_names(rt, source.as_str(), number(words.next())?);
    }
    if job == "grid" {
        let side = number(words.next())?;
        let ranks = number(words.next())?;
        return run_grid(&rt, side, ranks, words.next().is_none());
    }
    if job == "random" {
        let edges = number(words.next())?;
        let cells = number(words.next())?;
        let dim = number(words.next())?;
        return run_random(&rt, edges, cells, dim, number(words.next())?);
    }
    bail!("the first word is flux, names, grid or random")
}
