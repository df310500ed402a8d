// Calls of `op2` over files in memory.

use op_outside::{MemoryShelf, MemorySink};
use op2_command::op2_gated;
use par_exec::Gate;
use std::alloc::{AllocError, Global};
use std::marker::Sync;
use std::thread::Threads;

/// How a call ended: its status, and what it wrote to the output.
#[derive(Drop)]
pub struct Ended {
    pub status: u8,
    pub out: MemorySink,
}

/// A call of `op2` with these words and options over these files, each a name and a text.
pub fn called<R: Threads + Sync, G: Gate + Sync>(
    rt: &R,
    alloc: Global,
    words: &[&str],
    options: &[&str],
    files: &[(&str, &str)],
    gate: &G,
) -> Result<Ended, AllocError> {
    let mut shelf = MemoryShelf::new(alloc, Vec::new(alloc));
    for (name, text) in files {
        let bytes = text.as_bytes().to_vec(alloc)?;
        shelf.hold(String::from_str(alloc, name)?, bytes)?;
    }
    let mut all = Vec::new(alloc);
    all.push(String::from_str(alloc, "op2")?)?;
    for word in words {
        all.push(String::from_str(alloc, word)?)?;
    }
    for word in options {
        all.push(String::from_str(alloc, word)?)?;
    }
    let mut out = MemorySink::new(alloc, 1_000_000, Vec::new(alloc))?;
    let mut err = MemorySink::new(alloc, 1000, Vec::new(alloc))?;
    let status = op2_gated(rt, alloc, &all, &mut shelf, &mut out, &mut err, gate);
    Ok(Ended { status, out })
}

/// A source of one loop, whose kernel has 150 locals, too many to run in batches, and takes 5 turns for an element.
pub fn wide(alloc: Global) -> Result<String, AllocError> {
    let mut text = String::from_str(
        alloc,
        "extern int n;\nextern int a0[];\nvoid wide(int *a) {\n  int x0 = a[0];\n",
    )?;
    for before in 0..149u32 {
        let local = before.wrapping_add(1);
        text.push_str(&format!(in alloc; "  int x{local} = x{before} + {local};\n")?)?;
    }
    text.push_str("  for (int i = 0; i < 5; i++) {\n")?;
    for before in 0..149u32 {
        let local = before.wrapping_add(1);
        text.push_str(&format!(in alloc; "    x{local} = x{local} + x{before};\n")?)?;
    }
    text.push_str(
        "  }
  a[0] = x149 - x149 + 1;
}
int main(int argc, char **argv) {
  op_set s = op_decl_set(n, \"s\");
  op_dat a = op_decl_dat(s, 1, \"int\", a0, \"a\");
  op_par_loop(wide, \"wide\", s, op_arg_dat(a, -1, OP_ID, 1, \"int\", OP_RW));
  op_print_dat_to_txtfile(a, \"a\");
  op_exit();
}
",
    )?;
    Ok(text)
}
