// By whom a run is done.

ghost use Rattle.std.specs.Prelude.{◌≡◌, ◌<◌};

use std::alloc::Global;

/// By whom a run is done: threads, an allocator, so many workers, at least 1, and a gate that is told of each job just
/// before it runs.
#[derive(Drop)]
pub struct Crew<'a, R, G> {
    pub threads: &'a R,
    pub alloc: Global,
    pub workers: u32,
    pub gate: &'a G,
    pub ghost some: { 0 < workers },
}

impl<'a, R, G> Crew<'a, R, G> {
    /// The same with so many workers, at least 1.
    pub fn with_workers(&self, workers: u32) -> Crew<'a, R, G>
        requires { 0 < workers }
        ensures { result.workers ≡ workers }
    {
        Crew {
            threads: self.threads,
            alloc: self.alloc,
            workers,
            gate: self.gate,
        }
    }
}
