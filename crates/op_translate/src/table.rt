// The table of a program's loops, as lines of comments.

ghost use Rattle.std.specs.Prelude.{◌≡◌, ◌++◌, codes, map, OnOk};
ghost use Rattle.std.specs.List.{flat_map};
ghost use Rattle.std.specs.Fmt.{signed_decimal};
ghost use Rattle.c_tree.specs.Spelling.{word_spelling};
ghost use Rattle.c_tree.specs.Signs.{access_word_of};
ghost use Rattle.c_tree.specs.View.{host_of, hosts_of};
ghost use Rattle.op_translate.specs.Answered.{loop_of_found};
ghost use Rattle.op_translate.specs.Stubs.{loops_of, all_loops_of, index_of, via_name};
ghost use Rattle.op_translate.specs.Stubs.{use_text, arg_text, loop_text, stub_text, stubs_text, table_text};

use c_tree::{AccessWord, ArgIndex, ArgVia, Host, Ident, LoopArg, NumberLiteral, OpCall};
use op_num::{OutOfMemory, put_i32, put_u64};
use std::alloc::Global;

// A loop of a program: the names of its kernel and its set, and its arguments.
#[derive(Drop)]
struct Found<'a> {
    kernel: &'a Ident,
    set: &'a Ident,
    args: &'a [LoopArg],
}

/// Puts the table of the loops in these statements: a line that counts them, then a line for each.
pub fn put_table(alloc: Global, out: &mut Vec<u8>, hosts: &[Host]) -> Result<(), OutOfMemory>
    ensures { OnOk result (out.new.items ≡ out.old.items ++ table_text (all_loops_of (hosts_of hosts.now))) }
{
    let mut found = Vec::new(alloc);
    collect_all(&mut found, hosts)?;
    out.extend_from_slice(b"// op2stubs ")?;
    put_u64(out, found.len() as u64)?;
    out.extend_from_slice(b"\n")?;
    put_stubs(out, &found)
}

// Puts the loops of a statement behind these.
#[cycle(collects)]
fn collect<'a>(found: &mut Vec<Found<'a>>, host: &'a Host) -> Result<(), OutOfMemory>
    ensures { OnOk result (map loop_of_found found.new.items ≡ map loop_of_found found.old.items ++ loops_of (host_of host.now)) }
{
    match host {
        Host::Block { body, .. } => collect_all(found, body),
        Host::If { then, .. } => collect(found, then),
        Host::IfElse {
            then,
            otherwise,
            ..
        } => {
            collect(found, then)?;
            collect(found, otherwise)
        }
        Host::For { body, .. } => collect(found, body),
        Host::Call(
            OpCall::ParLoop {
                kernel,
                set,
                args,
                ..
            },
        ) => {
            found.push(Found { kernel, set, args })?;
            Ok(())
        }
        _ => Ok(()),
    }
}

// Puts the loops in statements behind these.
#[cycle(collects)]
fn collect_all<'a>(found: &mut Vec<Found<'a>>, hosts: &'a [Host]) -> Result<(), OutOfMemory>
    ensures { OnOk result (map loop_of_found found.new.items
        ≡ map loop_of_found found.old.items ++ all_loops_of (hosts_of hosts.now)) }
{
    for host in hosts {
        collect(found, host)?;
    }
    Ok(())
}

// Puts the lines of loops, numbered from 0 on.
fn put_stubs(out: &mut Vec<u8>, found: &[Found<'_>]) -> Result<(), OutOfMemory>
    ensures { OnOk result (out.new.items ≡ out.old.items ++ stubs_text 0 (map loop_of_found found.now)) }
{
    for i in 0..found.len() {
        put_stub(out, i as u64, &found[i])?;
    }
    Ok(())
}

// Puts the line of a loop.
fn put_stub(out: &mut Vec<u8>, number: u64, stub: &Found<'_>) -> Result<(), OutOfMemory>
    ensures { OnOk result (out.new.items ≡ out.old.items ++ stub_text number (loop_of_found stub.now)) }
{
    put_loop(out, number, stub.kernel, stub.set)?;
    put_args(out, stub.args)?;
    out.extend_from_slice(b"\n")
}

// Puts `// stub S K SET`.
fn put_loop(out: &mut Vec<u8>, number: u64, kernel: &Ident, set: &Ident) -> Result<(), OutOfMemory>
    ensures { OnOk result (out.new.items ≡ out.old.items ++ loop_text number kernel.now.name set.now.name) }
{
    out.extend_from_slice(b"// stub ")?;
    put_u64(out, number)?;
    put_named(out, b" ", kernel)?;
    put_named(out, b" ", set)
}

// Puts the arguments of a loop, each behind a space.
fn put_args(out: &mut Vec<u8>, args: &[LoopArg]) -> Result<(), OutOfMemory>
    ensures { OnOk result (out.new.items ≡ out.old.items ++ flat_map arg_text args.now) }
{
    for arg in args {
        put_arg(out, arg)?;
    }
    Ok(())
}

// Puts ` DAT/INDEX/VIA/DIM/ACCESS`, or ` gbl/NAME/DIM/ACCESS`.
fn put_arg(out: &mut Vec<u8>, arg: &LoopArg) -> Result<(), OutOfMemory>
    ensures { OnOk result (out.new.items ≡ out.old.items ++ arg_text arg.now) }
{
    match arg {
        LoopArg::Dat {
            dat,
            index,
            via,
            dim,
            access,
            ..
        } => {
            put_named(out, b" ", dat)?;
            put_index(out, *index)?;
            put_via(out, via)?;
            put_use(out, *dim, *access)
        }
        LoopArg::Global {
            global,
            dim,
            access,
            ..
        } => {
            put_named(out, b" gbl/", &global.name)?;
            put_use(out, *dim, *access)
        }
    }
}

// Puts `/DIM/ACCESS`.
fn put_use(out: &mut Vec<u8>, dim: NumberLiteral, access: AccessWord) -> Result<(), OutOfMemory>
    ensures { OnOk result (out.new.items ≡ out.old.items ++ use_text dim access) }
{
    out.extend_from_slice(b"/")?;
    put_i32(out, dim.value)?;
    out.extend_from_slice(b"/")?;
    out.extend_from_slice(access_name(access))
}

// Puts a name behind other bytes.
fn put_named(out: &mut Vec<u8>, front: &[u8], name: &Ident) -> Result<(), OutOfMemory>
    ensures { OnOk result (out.new.items ≡ out.old.items ++ front.now ++ name.now.name) }
{
    out.extend_from_slice(front)?;
    out.extend_from_slice(name.name.bytes())
}

// Puts `/` and the index as an integer: that of `-0` is 0.
fn put_index(out: &mut Vec<u8>, index: ArgIndex) -> Result<(), OutOfMemory>
    ensures { OnOk result (out.new.items ≡ out.old.items ++ codes "/" ++ signed_decimal (index_of index)) }
{
    let value = i64::from(index.value);
    let signed = if index.is_negative { -value } else { value };
    out.extend_from_slice(if signed < 0 { b"/-" } else { b"/" })?;
    put_u64(out, signed.unsigned_abs())
}

// Puts `/` and what the index goes through.
fn put_via(out: &mut Vec<u8>, via: &ArgVia) -> Result<(), OutOfMemory>
    ensures { OnOk result (out.new.items ≡ out.old.items ++ codes "/" ++ via_name via.now) }
{
    match via {
        ArgVia::Map(map) => put_named(out, b"/", map),
        ArgVia::Identity(_) => out.extend_from_slice(b"/OP_ID"),
    }
}

// The word of an access.
fn access_name(access: AccessWord) -> &'static [u8]
    ensures { result.now ≡ word_spelling (access_word_of access) }
{
    match access {
        AccessWord::Read => b"OP_READ",
        AccessWord::Write => b"OP_WRITE",
        AccessWord::Rw => b"OP_RW",
        AccessWord::Inc => b"OP_INC",
        AccessWord::Min => b"OP_MIN",
        AccessWord::Max => b"OP_MAX",
    }
}
