// What no clause says: that two threads run at once, and that the gate is told before each job.
ghost use Rattle.std.specs.Prelude.{◌≡◌, ◌<◌, ◌+◌, ◌*◌, ◌^◌, length, slice_set, pos};

use par_exec::{Crew, Gate, Job, Open, PartJob, run_group, run_parts};
use std::alloc::Global;
use std::marker::Sync;
use std::sync::atomic::{AtomicU64, Ordering};
use std::thread::Threads;

// So many workers on these threads, and a gate.
fn crew<'a, R: Threads + Sync, G: Gate + Sync>(
    threads: &'a R,
    alloc: Global,
    workers: u32,
    gate: &'a G,
) -> Crew<'a, R, G>
    requires { 0 < workers }
{
    Crew {
        threads,
        alloc,
        workers,
        gate,
    }
}

// Writes the number of a window into its first cell.
struct Number;

impl Job for Number {
    ghost accepts = { λ _ i n. (i < 2 ^ 31) × (0 < n) };

    ghost new_window = { λ _ i w. slice_set w 0 (pos i) };

    fn run(&self, index: usize, window: &mut [i32]) {
        window[0] = index as i32;
    }
}

// Holds window 0 until window 63 has entered, and window 63 until window 0 has.
#[derive(Drop)]
struct Meeting {
    first: AtomicU64,
    last: AtomicU64,
    seen: AtomicU64,
}

impl Meeting {
    fn look(&self, at: &AtomicU64) {
        for _ in 0..100_000_000u32 {
            if at.load(Ordering::SeqCst) != 0 {
                self.seen.fetch_add(1, Ordering::SeqCst);
                return;
            }
        }
    }
}

impl Gate for Meeting {
    fn enter(&self, index: usize) {
        if index == 0 {
            self.first.store(1, Ordering::SeqCst);
            self.look(&self.last);
        }
        if index == 63 {
            self.last.store(1, Ordering::SeqCst);
            self.look(&self.first);
        }
    }
}

#[test]
fn two_workers_meet(rt: HostRuntime) {
    let gate = Meeting {
        first: AtomicU64::new(0),
        last: AtomicU64::new(0),
        seen: AtomicU64::new(0),
    };
    let mut cells = [0i32; 128];
    run_group(&crew(&rt, rt.alloc(), 2, &gate), &mut cells, 2, &Number);
    assert_eq!(rt; gate.seen.load(Ordering::SeqCst), 2);
    for window in 0..64usize {
        assert_eq!(rt; cells[2 * window], window as i32);
        assert_eq!(rt; cells[2 * window + 1], 0);
    }
}

// Adds the number of a part to it.
struct Add;

impl PartJob<u32> for Add {
    ghost takes = { λ _ i x. i + x < 2 ^ 32 };

    ghost makes = { λ _ i x y. y ≡ x + i };

    fn run<G: Gate>(&self, _gate: &G, index: usize, part: &mut u32) {
        *part += index as u32;
    }
}

#[test]
fn two_workers_meet_on_parts(rt: HostRuntime) {
    let gate = Meeting {
        first: AtomicU64::new(0),
        last: AtomicU64::new(0),
        seen: AtomicU64::new(0),
    };
    let mut parts = [7u32; 64];
    run_parts(&rt, 2, &gate, &Add, &mut parts);
    assert_eq!(rt; gate.seen.load(Ordering::SeqCst), 2);
    for part in 0..64usize {
        assert_eq!(rt; parts[part], 7 + part as u32);
    }
}

// Adds up the numbers of the windows that enter, and counts them.
#[derive(Drop)]
struct Count {
    entered: AtomicU64,
    sum: AtomicU64,
}

impl Gate for Count {
    fn enter(&self, index: usize) {
        self.entered.fetch_add(1, Ordering::SeqCst);
        self.sum.fetch_add(index as u64, Ordering::SeqCst);
    }
}

#[test]
fn any_number_of_workers_does_all(rt: HostRuntime) {
    for workers in [1u32, 2, 3, 64] {
        let gate = Count {
            entered: AtomicU64::new(0),
            sum: AtomicU64::new(0),
        };
        let mut cells = [7i32; 15];
        run_group(
            &crew(&rt, rt.alloc(), workers, &gate),
            &mut cells,
            3,
            &Number,
        );
        assert_eq!(rt; cells, [0, 7, 7, 1, 7, 7, 2, 7, 7, 3, 7, 7, 4, 7, 7]);
        assert_eq!(rt; gate.entered.load(Ordering::SeqCst), 5);
        assert_eq!(rt; gate.sum.load(Ordering::SeqCst), 10);
        let mut empty: [i32; 0] = [];
        run_group(
            &crew(&rt, rt.alloc(), workers, &Open),
            &mut empty,
            3,
            &Number,
        );
    }
}
