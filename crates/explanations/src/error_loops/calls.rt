// The calls of `op_par_loop` in a source.
ghost use Rattle.std.specs.Prelude.{◌≡◌, ◌++◌, map, IfOk, OnOk};
ghost use Rattle.c_tree.specs.View.{host_of, hosts_of};
ghost use Rattle.explanations.specs.Calls.{call_of, loops_of, all_loops_of};

use c_tree::{Host, Ident, LoopArg, OpCall};
use op_num::OutOfMemory;
use std::alloc::Global;

/// A call of `op_par_loop`: the number of its word, the name of its kernel, and its arguments.
#[derive(Drop)]
pub struct LoopCall<'a> {
    pub at: usize,
    pub kernel: &'a Ident,
    pub args: &'a [LoopArg],
}

// Puts the loops of a statement behind these.
#[cycle(collects)]
fn collect<'a>(calls: &mut Vec<LoopCall<'a>>, host: &'a Host) -> Result<(), OutOfMemory>
    ensures { OnOk result (map call_of calls.new.items ≡ map call_of calls.old.items ++ loops_of (host_of host.now)) }
{
    match host {
        Host::Block { body, .. } => collect_all(calls, body),
        Host::If { then, .. } => collect(calls, then),
        Host::IfElse {
            then,
            otherwise,
            ..
        } => {
            collect(calls, then)?;
            collect(calls, otherwise)
        }
        Host::For { body, .. } => collect(calls, body),
        Host::Call(
            OpCall::ParLoop {
                at,
                kernel,
                args,
                ..
            },
        ) => {
            calls.push(LoopCall {
                at: *at,
                kernel,
                args,
            })?;
            Ok(())
        }
        _ => Ok(()),
    }
}

// Puts the loops in statements behind these.
#[cycle(collects)]
fn collect_all<'a>(calls: &mut Vec<LoopCall<'a>>, hosts: &'a [Host]) -> Result<(), OutOfMemory>
    ensures { OnOk result (map call_of calls.new.items
        ≡ map call_of calls.old.items ++ all_loops_of (hosts_of hosts.now)) }
{
    for host in hosts {
        collect(calls, host)?;
    }
    Ok(())
}

/// The loops in statements, in the order of the text. An error is want of memory.
pub fn calls_in(alloc: Global, hosts: &[Host]) -> Result<Vec<LoopCall<'_>>, OutOfMemory>
    ensures { IfOk result (λ v. map call_of v.items ≡ all_loops_of (hosts_of hosts.now)) }
{
    let mut calls = Vec::new(alloc);
    collect_all(&mut calls, hosts)?;
    Ok(calls)
}
