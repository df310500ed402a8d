// Runs go by their schedules: what a gate is told is the schedule that `op2 schedule` writes for the same words.

use crate::calls::{called, wide};
use crate::following::{goes_by, joins_go_by, steps_taken};
use crate::schedule_text::steps_in;
use crate::told::{Kind, Note, Notes};
use par_exec::Open;
use std::alloc::{AllocError, Global};
use std::marker::Sync;
use std::test::Fail;
use std::thread::Threads;

// Edges add to their nodes, nodes take a step, and edges add again; a sum is printed between. One copy is exchanged.
const FLUX: &str = "extern int nn;
extern int ne;
extern int ends[];
extern int q0[];
extern int r0[];
void flux(const int *p, const int *q, int *r, int *s) { *r += *p - *q; *s += *q - *p; }
void move(int *q, int *r, int *sum) { *q = *q + *r; *r = 0; *sum += *q; }
int main(int argc, char **argv) {
  op_set nodes = op_decl_set(nn, \"nodes\");
  op_set edges = op_decl_set(ne, \"edges\");
  op_map end = op_decl_map(edges, nodes, 2, ends, \"end\");
  op_dat q = op_decl_dat(nodes, 1, \"int\", q0, \"q\");
  op_dat r = op_decl_dat(nodes, 1, \"int\", r0, \"r\");
  int sum = 0;
  op_par_loop(flux, \"flux\", edges,
    op_arg_dat(q, 0, end, 1, \"int\", OP_READ), op_arg_dat(q, 1, end, 1, \"int\", OP_READ),
    op_arg_dat(r, 0, end, 1, \"int\", OP_INC), op_arg_dat(r, 1, end, 1, \"int\", OP_INC));
  op_par_loop(move, \"move\", nodes,
    op_arg_dat(q, -1, OP_ID, 1, \"int\", OP_RW), op_arg_dat(r, -1, OP_ID, 1, \"int\", OP_RW), op_arg_gbl(&sum, 1, \"int\", OP_INC));
  op_printf(\"%d\\n\", sum);
  op_par_loop(flux, \"flux\", edges,
    op_arg_dat(q, 0, end, 1, \"int\", OP_READ), op_arg_dat(q, 1, end, 1, \"int\", OP_READ),
    op_arg_dat(r, 0, end, 1, \"int\", OP_INC), op_arg_dat(r, 1, end, 1, \"int\", OP_INC));
  op_print_dat_to_txtfile(r, \"r\");
  op_exit();
}
";

// The same with kernels that take 300 turns.
const LONG: &str = "extern int nn;
extern int ne;
extern int ends[];
extern int q0[];
extern int r0[];
void flux(const int *p, const int *q, int *r, int *s) {
  int d = *p - *q;
  for (int i = 0; i < 300; i++) { d = d * 3 + i; }
  *r += d; *s += d;
}
int main(int argc, char **argv) {
  op_set nodes = op_decl_set(nn, \"nodes\");
  op_set edges = op_decl_set(ne, \"edges\");
  op_map end = op_decl_map(edges, nodes, 2, ends, \"end\");
  op_dat q = op_decl_dat(nodes, 1, \"int\", q0, \"q\");
  op_dat r = op_decl_dat(nodes, 1, \"int\", r0, \"r\");
  op_par_loop(flux, \"flux\", edges,
    op_arg_dat(q, 0, end, 1, \"int\", OP_READ), op_arg_dat(q, 1, end, 1, \"int\", OP_READ),
    op_arg_dat(r, 0, end, 1, \"int\", OP_INC), op_arg_dat(r, 1, end, 1, \"int\", OP_INC));
  op_print_dat_to_txtfile(r, \"r\");
  op_exit();
}
";

// A path of so many nodes, as a mesh.
fn path(alloc: Global, nodes: u32) -> Result<String, AllocError> {
    let edges = nodes.wrapping_sub(1);
    let ends = edges.wrapping_mul(2);
    let mut text = format!(in alloc; "op2mesh 2 int nn {nodes} int ne {edges} ints ends {ends}")?;
    for edge in 0..edges {
        let next = edge.wrapping_add(1);
        text.push_str(&format!(in alloc; " {edge} {next}")?)?;
    }
    text.push_str(&format!(in alloc; " ints q0 {nodes}")?)?;
    for node in 0..nodes {
        let value = node.wrapping_mul(7) % 11;
        text.push_str(&format!(in alloc; " {value}")?)?;
    }
    text.push_str(&format!(in alloc; " ints r0 {nodes} {nodes}*0 done")?)?;
    Ok(text)
}

// What a call writes over a source `s.c`, a mesh `m` and another file `t`, where it ends with status 0; else a word.
fn written<'a, R: Threads + Sync>(
    rt: &R,
    alloc: Global,
    words: &[&str],
    source: &'a str,
    mesh: &'a str,
    other: &'a str,
) -> Result<String, AllocError> {
    let files = [("s.c", source), ("m", mesh), ("t", other)];
    let ended = called(rt, alloc, words, &[], &files, &Open)?;
    if ended.status != 0 {
        return String::from_str(alloc, "refused");
    }
    let bytes = ended.out.bytes().to_vec(alloc)?;
    Ok(String::from_utf8(bytes).unwrap_or(String::new(alloc)))
}

// What a gate is told of such a run that ends with status 0; else nothing.
fn told<'a, R: Threads + Sync>(
    rt: &R,
    alloc: Global,
    words: &[&str],
    source: &'a str,
    mesh: &'a str,
    other: &'a str,
) -> Result<Vec<Note>, AllocError> {
    let gate = Notes::new(alloc, 100_000)?;
    let files = [("s.c", source), ("m", mesh), ("t", other)];
    let ended = called(rt, alloc, words, &[], &files, &gate)?;
    if ended.status != 0 {
        return Ok(Vec::new(alloc));
    }
    Ok(gate.all(alloc)?.unwrap_or(Vec::new(alloc)))
}

#[test]
fn one_worker_takes_the_steps_of_the_schedule(rt: HostRuntime) -> Result<(), Fail> {
    let alloc = rt.alloc();
    for nodes in [4, 20, 700] {
        let mesh = path(alloc, nodes)?;
        let cases: [(&[&str], &[&str]); 7] = [
            (&["schedule", "s.c", "m"], &["run", "s.c", "m"]),
            (
                &["schedule", "s.c", "m", "--block=2"],
                &["run", "s.c", "m", "--block=2"],
            ),
            (
                &["schedule", "s.c", "m", "--ranks=3"],
                &["run", "s.c", "m", "--ranks=3"],
            ),
            (
                &["schedule", "s.c", "m", "--ranks=3", "--block=2"],
                &["run", "s.c", "m", "--ranks=3", "--block=2"],
            ),
            (
                &["schedule", "s.c", "m", "--seed=5"],
                &["run", "s.c", "m", "--seed=5"],
            ),
            (
                &["schedule", "s.c", "m", "--ranks=3", "--seed=5"],
                &["run", "s.c", "m", "--ranks=3", "--seed=5"],
            ),
            (
                &["schedule", "s.c", "m", "--ranks=3", "--renumber=end"],
                &["run", "s.c", "m", "--ranks=3", "--renumber=end"],
            ),
        ];
        for (schedule, run) in cases {
            let text = written(&rt, alloc, schedule, FLUX, mesh.as_str(), "")?;
            let steps = steps_in(alloc, &text)?;
            assert!(rt; steps.len() >= nodes as usize);
            let notes = told(&rt, alloc, run, FLUX, mesh.as_str(), "")?;
            assert_eq!(rt; steps_taken(alloc, &notes)?, steps);
        }
    }
    Ok(())
}

// By a schedule that is given, and by a plan.
#[test]
fn one_worker_takes_the_steps_that_are_given(rt: HostRuntime) -> Result<(), Fail> {
    let alloc = rt.alloc();
    let mesh = path(alloc, 20)?;
    let cases: [(&[&str], &[&str], &[&str]); 4] = [
        (
            &["schedule", "s.c", "m", "--workers=4", "--block=4"],
            &["schedule", "s.c", "m", "--workers=4", "--block=4"],
            &["run", "s.c", "m", "--block=4", "--schedule=t"],
        ),
        (
            &[
                "schedule",
                "s.c",
                "m",
                "--ranks=3",
                "--workers=4",
                "--block=4",
            ],
            &[
                "schedule",
                "s.c",
                "m",
                "--ranks=3",
                "--workers=4",
                "--block=4",
            ],
            &["run", "s.c", "m", "--ranks=3", "--block=4", "--schedule=t"],
        ),
        (
            &["plan", "s.c", "m", "--block=4"],
            &["schedule", "s.c", "m", "--block=4"],
            &["run", "s.c", "m", "--plan=t"],
        ),
        (
            &["plan", "s.c", "m", "--ranks=3", "--block=4"],
            &["schedule", "s.c", "m", "--ranks=3", "--block=4"],
            &["run", "s.c", "m", "--ranks=3", "--plan=t"],
        ),
    ];
    for (given, schedule, run) in cases {
        let other = written(&rt, alloc, given, FLUX, mesh.as_str(), "")?;
        let text = written(&rt, alloc, schedule, FLUX, mesh.as_str(), "")?;
        let notes = told(&rt, alloc, run, FLUX, mesh.as_str(), other.as_str())?;
        assert!(rt; notes.len() > 20);
        assert_eq!(rt; steps_taken(alloc, &notes)?, steps_in(alloc, &text)?);
    }
    Ok(())
}

#[test]
fn each_rank_goes_by_the_schedule_of_several_workers(rt: HostRuntime) -> Result<(), Fail> {
    let alloc = rt.alloc();
    for (source, nodes) in [(FLUX, 20), (FLUX, 700), (LONG, 20), (LONG, 300)] {
        let mesh = path(alloc, nodes)?;
        let cases: [(&[&str], &[&str]); 5] = [
            (
                &["schedule", "s.c", "m", "--workers=4"],
                &["run", "s.c", "m", "--workers=4"],
            ),
            (
                &["schedule", "s.c", "m", "--workers=4", "--block=2"],
                &["run", "s.c", "m", "--workers=4", "--block=2"],
            ),
            (
                &["schedule", "s.c", "m", "--workers=4", "--ranks=3"],
                &["run", "s.c", "m", "--workers=4", "--ranks=3"],
            ),
            (
                &["schedule", "s.c", "m", "--workers=4", "--ranks=8"],
                &["run", "s.c", "m", "--workers=4", "--ranks=8"],
            ),
            (
                &[
                    "schedule",
                    "s.c",
                    "m",
                    "--workers=4",
                    "--ranks=3",
                    "--seed=7",
                ],
                &["run", "s.c", "m", "--workers=4", "--ranks=3", "--seed=7"],
            ),
        ];
        for (schedule, run) in cases {
            let text = written(&rt, alloc, schedule, source, mesh.as_str(), "")?;
            let steps = steps_in(alloc, &text)?;
            assert!(rt; steps.len() >= nodes as usize);
            let notes = told(&rt, alloc, run, source, mesh.as_str(), "")?;
            assert!(rt; joins_go_by(alloc, &notes, &steps)?);
            for rank in 0..8 {
                assert!(rt; goes_by(alloc, &notes, &steps, rank)?, "rank {rank}");
            }
        }
    }
    Ok(())
}

// How many notes tell that elements begin as a group.
fn in_groups(notes: &[Note]) -> usize {
    let mut count: usize = 0;
    for note in notes {
        if note.kind == Kind::GroupBegins {
            count = count.saturating_add(1);
        }
    }
    count
}

// How many steps begin an element that isn't ended at once, so that it is one of a group.
fn grouped(steps: &[Note]) -> usize {
    let mut count: usize = 0;
    let mut before: Option<Note> = None;
    for step in steps {
        let end = before.map(|begin| Note {
            kind: Kind::End,
            ..begin
        });
        if before.is_some() && end != Some(*step) {
            count = count.saturating_add(1);
        }
        before = if step.kind == Kind::Begin {
            Some(*step)
        } else {
            None
        };
    }
    count
}

// Elements with a long kernel that runs in no batches begin in the groups of the schedule, and by a plan in those that its
// colours give.
#[test]
fn long_kernels_begin_in_the_groups_of_the_schedule(rt: HostRuntime) -> Result<(), Fail> {
    let alloc = rt.alloc();
    let source = wide(alloc)?;
    let mesh = "op2mesh 2 int n 100 ints a0 100 100*0 done";
    let cases: [(&[&str], &[&str], &[&str]); 4] = [
        (
            &["plan", "s.c", "m", "--block=32"],
            &["schedule", "s.c", "m", "--block=32", "--workers=4"],
            &["run", "s.c", "m", "--block=32", "--workers=4"],
        ),
        (
            &["plan", "s.c", "m", "--block=32"],
            &["schedule", "s.c", "m", "--block=32", "--workers=4"],
            &["run", "s.c", "m", "--plan=t", "--workers=4"],
        ),
        (
            &["plan", "s.c", "m", "--ranks=3", "--block=32"],
            &[
                "schedule",
                "s.c",
                "m",
                "--ranks=3",
                "--block=32",
                "--workers=4",
            ],
            &["run", "s.c", "m", "--ranks=3", "--block=32", "--workers=4"],
        ),
        (
            &["plan", "s.c", "m", "--ranks=3", "--block=32"],
            &[
                "schedule",
                "s.c",
                "m",
                "--ranks=3",
                "--block=32",
                "--workers=4",
            ],
            &["run", "s.c", "m", "--ranks=3", "--plan=t", "--workers=4"],
        ),
    ];
    for (plan, schedule, run) in cases {
        let other = written(&rt, alloc, plan, source.as_str(), mesh, "")?;
        let text = written(&rt, alloc, schedule, source.as_str(), mesh, "")?;
        let steps = steps_in(alloc, &text)?;
        assert!(rt; grouped(&steps) > 90);
        let notes = told(&rt, alloc, run, source.as_str(), mesh, other.as_str())?;
        assert_eq!(rt; in_groups(&notes), grouped(&steps));
        for rank in 0..3 {
            assert!(rt; goes_by(alloc, &notes, &steps, rank)?, "rank {rank}");
        }
    }
    Ok(())
}
