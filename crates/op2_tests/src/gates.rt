// Gates on calls of `op2`: what they are told, and that two workers meet in one.

use crate::calls::{Ended, called, wide};
use par_exec::{Gate, Phase};
use std::alloc::{AllocError, Global};
use std::marker::Sync;
use std::sync::atomic::{AtomicU64, Ordering};
use std::test::Fail;
use std::thread::Threads;

// A source of one set and one dat of one cell, and one loop over it; its print comes last.
pub const BUMP: &str = "extern int n;
extern int a0[];
void bump(int *a) { a[0] = a[0] + 1; }
int main(int argc, char **argv) {
  op_set s = op_decl_set(n, \"s\");
  op_dat a = op_decl_dat(s, 1, \"int\", a0, \"a\");
  op_par_loop(bump, \"bump\", s, op_arg_dat(a, -1, OP_ID, 1, \"int\", OP_RW));
  op_print_dat_to_txtfile(a, \"a\");
  op_exit();
}
";

// The same, with a sum over all elements that is printed before the loop and behind it.
const SUMMED: &str = "extern int n;
extern int a0[];
void bump(int *a, int *sum) { a[0] = a[0] + 1; *sum += a[0]; }
int main(int argc, char **argv) {
  op_set s = op_decl_set(n, \"s\");
  op_dat a = op_decl_dat(s, 1, \"int\", a0, \"a\");
  int sum = 0;
  op_printf(\"%d\\n\", sum);
  op_par_loop(bump, \"bump\", s, op_arg_dat(a, -1, OP_ID, 1, \"int\", OP_RW), op_arg_gbl(&sum, 1, \"int\", OP_INC));
  op_printf(\"%d\\n\", sum);
  op_exit();
}
";

// A loop whose kernel takes 300 turns for an element.
const TURNS: &str = "extern int n;
extern int a0[];
void turns(int *a) { for (int i = 0; i < 300; i++) { a[0] = a[0] * 3 + i; } }
int main(int argc, char **argv) {
  op_set s = op_decl_set(n, \"s\");
  op_dat a = op_decl_dat(s, 1, \"int\", a0, \"a\");
  op_par_loop(turns, \"turns\", s, op_arg_dat(a, -1, OP_ID, 1, \"int\", OP_RW));
  op_print_dat_to_txtfile(a, \"a\");
  op_exit();
}
";

pub const TWO: &str = "op2mesh 1 int n 2 ints a0 2 5 7 done";

const SIXTY_FOUR: &str = "op2mesh 2 int n 64 ints a0 64 64*0 done";

const TWO_THOUSAND: &str = "op2mesh 2 int n 2000 ints a0 2000 2000*0 done";

const THOUSANDS: &str = "op2mesh 2 int n 20000 ints a0 20000 20000*0 done";

const PRINTED: &str = "a: a s 2 1\n6\n8\n";

// Both elements are open at once.
pub const TOGETHER: &str = "op2sched 1
begin 0 0 0
begin 0 0 1
end 0 0 1
end 0 0 0
join 1
join 2
done
";

// A run of the loop over a mesh with these options, where `t` holds the schedule of both elements at once.
fn gated<R: Threads + Sync, G: Gate + Sync>(
    rt: &R,
    alloc: Global,
    options: &[&str],
    mesh: &str,
    gate: &G,
) -> Result<Ended, AllocError> {
    gated_source(rt, alloc, BUMP, options, mesh, gate)
}

// A run of a source over a mesh with these options.
fn gated_source<'a, R: Threads + Sync, G: Gate + Sync>(
    rt: &R,
    alloc: Global,
    source: &'a str,
    options: &[&str],
    mesh: &'a str,
    gate: &G,
) -> Result<Ended, AllocError> {
    let files = [("s.c", source), ("m.mesh", mesh), ("t", TOGETHER)];
    let words = ["run", "s.c", "m.mesh"];
    called(rt, alloc, &words, options, &files, gate)
}

// Notes the numbers that enter, one decimal place each, with 1 added.
#[derive(Drop)]
struct Notes {
    seen: AtomicU64,
}

impl Gate for Notes {
    fn enter(&self, index: usize) {
        let seen = self.seen.load(Ordering::SeqCst);
        self.seen.store(
            seen.wrapping_mul(10)
                .wrapping_add(index as u64)
                .wrapping_add(1),
            Ordering::SeqCst,
        );
    }
}

#[test]
fn gates_are_told_of_groups(rt: HostRuntime) -> Result<(), Fail> {
    let cases: [(&[&str], u64); 4] = [
        (&["--schedule=t"], 12),
        (&["--ranks=2", "--seed=0"], 11),
        (&[], 0),
        (&["--ranks=2"], 0),
    ];
    for (options, seen) in cases {
        let gate = Notes {
            seen: AtomicU64::new(0),
        };
        let ended = gated(&rt, rt.alloc(), options, TWO, &gate)?;
        assert_eq!(rt; ended.status, 0);
        assert_eq!(rt; ended.out.bytes(), PRINTED.as_bytes());
        assert_eq!(rt; gate.seen.load(Ordering::SeqCst), seen);
    }
    Ok(())
}

// Holds the first element of a group until the one with the number `last` has entered, and that one until the first
// has; and counts those of the two that saw the other.
#[derive(Drop)]
struct Meeting {
    last: usize,
    first_entered: AtomicU64,
    last_entered: AtomicU64,
    met: AtomicU64,
}

impl Meeting {
    fn new(last: usize) -> Meeting {
        Meeting {
            last,
            first_entered: AtomicU64::new(0),
            last_entered: AtomicU64::new(0),
            met: AtomicU64::new(0),
        }
    }

    fn look(&self, at: &AtomicU64) {
        for _ in 0..100_000_000u32 {
            if at.load(Ordering::SeqCst) != 0 {
                self.met.fetch_add(1, Ordering::SeqCst);
                return;
            }
        }
    }
}

impl Gate for Meeting {
    fn enter(&self, index: usize) {
        if index == 0 {
            self.first_entered.store(1, Ordering::SeqCst);
            self.look(&self.last_entered);
        }
        if index == self.last {
            self.last_entered.store(1, Ordering::SeqCst);
            self.look(&self.first_entered);
        }
    }
}

#[test]
fn two_workers_meet_in_a_loop(rt: HostRuntime) -> Result<(), Fail> {
    let gate = Meeting::new(1);
    let options: &[&str] = &["--schedule=t", "--workers=2"];
    let ended = gated(&rt, rt.alloc(), options, TWO, &gate)?;
    assert_eq!(rt; ended.status, 0);
    assert_eq!(rt; ended.out.bytes(), PRINTED.as_bytes());
    assert_eq!(rt; gate.met.load(Ordering::SeqCst), 2);
    Ok(())
}

// What is printed of the dat with so many values, each of which is 1.
fn ones(alloc: Global, count: u32) -> Result<String, AllocError> {
    let mut printed = format!(in alloc; "a: a s {count} 1\n")?;
    for _ in 0..count {
        printed.push_str("1\n")?;
    }
    Ok(printed)
}

#[test]
fn two_workers_share_a_group_of_the_standard_order(rt: HostRuntime) -> Result<(), Fail> {
    let alloc = rt.alloc();
    let printed = ones(alloc, 64)?;
    let source = wide(alloc)?;
    let gate = Meeting::new(63);
    let options: &[&str] = &["--workers", "2"];
    let ended = gated_source(&rt, alloc, source.as_str(), options, SIXTY_FOUR, &gate)?;
    assert_eq!(rt; ended.status, 0);
    assert_eq!(rt; ended.out.bytes(), printed.as_bytes());
    assert_eq!(rt; gate.met.load(Ordering::SeqCst), 2);
    Ok(())
}

#[test]
fn two_workers_meet_on_two_ranks(rt: HostRuntime) -> Result<(), Fail> {
    let gate = Meeting::new(1);
    let options: &[&str] = &["--ranks=2", "--workers=2"];
    let ended = gated_source(&rt, rt.alloc(), SUMMED, options, THOUSANDS, &gate)?;
    assert_eq!(rt; ended.status, 0);
    assert_eq!(rt; ended.out.bytes(), "0\n20000\n".as_bytes());
    assert_eq!(rt; gate.met.load(Ordering::SeqCst), 2);
    Ok(())
}

// Counts how often it is told of a begin.
#[derive(Drop)]
struct Count {
    told: AtomicU64,
}

impl Gate for Count {
    fn enter(&self, _index: usize) {
        self.told.fetch_add(1, Ordering::SeqCst);
    }
}

// On one rank with two workers the first group of a run is shared; the other elements are a round, and in it come batches
// where their kernel is long. The output is that of one worker.
#[test]
fn many_elements_come_in_a_round(rt: HostRuntime) -> Result<(), Fail> {
    let alloc = rt.alloc();
    for (source, told) in [(BUMP, 64 + 1), (TURNS, 64 + 1 + 31)] {
        let gate = Count {
            told: AtomicU64::new(0),
        };
        let one = gated_source(&rt, alloc, source, &[], TWO_THOUSAND, &gate)?;
        assert_eq!(rt; one.status, 0);
        assert_eq!(rt; gate.told.load(Ordering::SeqCst), 0);
        let options: &[&str] = &["--workers", "2"];
        let two = gated_source(&rt, alloc, source, options, TWO_THOUSAND, &gate)?;
        assert_eq!(rt; two.status, 0);
        assert_eq!(rt; two.out.bytes(), one.out.bytes());
        assert_eq!(rt; gate.told.load(Ordering::SeqCst), told);
    }
    Ok(())
}

// Holds the batch that begins with the place 64, the first behind the first group, until the one that begins with the
// place 1,024 has begun, and that one until the first has.
#[derive(Drop)]
struct Batches {
    meeting: Meeting,
}

impl Gate for Batches {
    fn enter(&self, _index: usize) {}

    fn begin(&self, _item: u32, _rank: u32, places: &[u32]) {
        match places.first() {
            Some(64) => self.meeting.enter(0),
            Some(1024) => self.meeting.enter(1024),
            _ => {}
        }
    }
}

#[test]
fn two_batches_of_a_rank_meet(rt: HostRuntime) -> Result<(), Fail> {
    let gate = Batches {
        meeting: Meeting::new(1024),
    };
    let options: &[&str] = &["--workers=2"];
    let ended = gated_source(&rt, rt.alloc(), TURNS, options, TWO_THOUSAND, &gate)?;
    assert_eq!(rt; ended.status, 0);
    assert_eq!(rt; gate.meeting.met.load(Ordering::SeqCst), 2);
    Ok(())
}

// Notes phases and items, a decimal place each: phases 1 to 4, an item's begin 5 with its loop's number and its count
// behind it, and its end 6.
#[derive(Drop)]
struct Phases {
    seen: AtomicU64,
}

impl Phases {
    fn note(&self, number: u64) {
        let seen = self.seen.load(Ordering::SeqCst);
        self.seen.store(seen.wrapping_mul(10).wrapping_add(number), Ordering::SeqCst);
    }
}

impl Gate for Phases {
    fn enter(&self, _index: usize) {}

    fn phase(&self, phase: Phase) {
        self.note(match phase {
            Phase::Read => 1,
            Phase::Bound => 2,
            Phase::Distributed => 3,
            Phase::Planned => 4,
        });
    }

    fn item_begins(&self, _item: u32, site: Option<u32>, count: u32) {
        self.note(5);
        if let Some(site) = site {
            self.note(site as u64);
            self.note(count as u64);
        }
    }

    fn item_ends(&self, _item: u32) {
        self.note(6);
    }
}

// A loop over two elements, and two statements.
#[test]
fn phases_and_items_are_told(rt: HostRuntime) -> Result<(), Fail> {
    for ranks in ["--ranks=1", "--ranks=2"] {
        let gate = Phases {
            seen: AtomicU64::new(0),
        };
        let ended = gated(&rt, rt.alloc(), &[ranks], TWO, &gate)?;
        assert_eq!(rt; ended.status, 0);
        assert_eq!(rt; gate.seen.load(Ordering::SeqCst), 123_450_265_656);
    }
    Ok(())
}
