// What happens to a component of an argument, and which rules that breaks.

ghost use Rattle.std.specs.Prelude.{◌≡◌, ◌≤◌, ◌<◌, ◌⊎◌, ◌&&◌, length, map};
ghost use Rattle.kernel_model.specs.Refusals.{argument_of, is_target, is_sum, is_extremum, is_read, belongs, opposite, sum_reads};
ghost use Rattle.kernel_model.specs.Walk.{is_op_read, is_op_write, is_op_reduce, is_op_inc, is_op_extremum, is_unknown, is_out};
ghost use Rattle.kernel_model.specs.Walk.{is_unwritten, event_found, with_rules};
ghost use Rattle.op_num.specs.Access.{access_of};
ghost use Rattle.access_check.specs.Modes.{model_of, AreSmall};
ghost use Rattle.access_check.specs.Found.{found_of};
ghost use Rattle.access_check.specs.States.{has_component, number_of};
ghost use Rattle.access_check.specs.Uses.{event_of};

use crate::components::{Components, is_among};
use crate::found::{Breach, Rule, with_rule};
use crate::modes::{Mode, mode_of};
use c_tree::MinMax;
use kernel_model::types::Pos;
use op_num::reductions::Access;

/// How a component is used.
#[derive(Clone, Copy, Debug, PartialEq, Eq)]
pub enum Use {
    /// It is read.
    Read,
    /// It is the target of `=`.
    Assign,
    /// It is the target of `+=` or `-=`.
    Add,
    /// It is the target of another compound assignment.
    Change,
    /// It is the P on the right of `P = MIN(P, e)` or `P = MIN(e, P)`, or of the same with `MAX`.
    Own(MinMax),
    /// It is the target P of `P = MIN(P, e)` or `P = MIN(e, P)`, or of the same with `MAX`.
    Merge(MinMax),
}

/// A use of a component of an argument, with its index where that is static, and the place of the argument's name.
#[derive(Clone, Copy, Debug, PartialEq, Eq)]
pub struct Occurrence {
    pub how: Use,
    pub arg: u32,
    pub index: Option<i32>,
    pub at: Pos,
}

fn is_stored(o: Occurrence) -> bool
    ensures { result ≡ is_target (event_of o) }
{
    match o.how {
        Use::Read => false,
        Use::Assign => true,
        Use::Add => true,
        Use::Change => true,
        Use::Own(_) => false,
        Use::Merge(_) => true,
    }
}

fn is_added(o: Occurrence) -> bool
    ensures { result ≡ is_sum (event_of o) }
{
    match o.how {
        Use::Add => true,
        _ => false,
    }
}

fn belongs_to(which: MinMax, access: Access) -> bool
    ensures { result ≡ belongs which (access_of access) }
{
    match which {
        MinMax::Min => match access {
            Access::Min => true,
            _ => false,
        },
        MinMax::Max => match access {
            Access::Max => true,
            _ => false,
        },
    }
}

fn is_merged(o: Occurrence, access: Access) -> bool
    ensures { result ≡ is_extremum (access_of access) (event_of o) }
{
    match o.how {
        Use::Merge(which) => belongs_to(which, access),
        _ => false,
    }
}

fn sum_is_read(access: Access) -> bool
    ensures { result ≡ sum_reads (access_of access) }
{
    match access {
        Access::Inc => false,
        _ => true,
    }
}

fn is_used(o: Occurrence, access: Access) -> bool
    ensures { result ≡ is_read (access_of access) (event_of o) }
{
    match o.how {
        Use::Read => true,
        Use::Assign => false,
        Use::Add => sum_is_read(access),
        Use::Change => true,
        Use::Own(which) => !belongs_to(which, access),
        Use::Merge(_) => false,
    }
}

fn only_reads(access: Access) -> bool
    ensures { result ≡ is_op_read (access_of access) }
{
    match access {
        Access::Read => true,
        _ => false,
    }
}

/// Whether the access is OP_WRITE.
pub fn only_writes(access: Access) -> bool
    ensures { result ≡ is_op_write (access_of access) }
{
    match access {
        Access::Write => true,
        _ => false,
    }
}

fn reduces(access: Access) -> bool
    ensures { result ≡ is_op_reduce (access_of access) }
{
    match access {
        Access::Inc => true,
        Access::Min => true,
        Access::Max => true,
        _ => false,
    }
}

fn increments(access: Access) -> bool
    ensures { result ≡ is_op_inc (access_of access) }
{
    match access {
        Access::Inc => true,
        _ => false,
    }
}

fn takes_extremum(access: Access) -> bool
    ensures { result ≡ is_op_extremum (access_of access) }
{
    match access {
        Access::Min => true,
        Access::Max => true,
        _ => false,
    }
}

fn is_not_static(index: Option<i32>) -> bool
    ensures { result ≡ is_unknown (number_of index) }
{
    match index {
        None => true,
        Some(_) => false,
    }
}

fn is_beyond(dim: u32, index: Option<i32>) -> bool
    ensures { result ≡ is_out dim (number_of index) }
{
    match index {
        None => false,
        Some(i) => i < 0 || i as u32 >= dim,
    }
}

fn is_missing(covered: &Components, arg: u32, dim: u32, index: Option<i32>) -> bool
    requires arg { dim ≤ 0 ⊎ (arg < 16) }
    requires dim { dim ≤ 64 }
    ensures { result ≡ is_unwritten dim (has_component covered.now arg) (number_of index) }
{
    match index {
        None => false,
        Some(i) => i >= 0 && (i as u32) < dim && !is_among(covered, arg, i as u32),
    }
}

fn writes_read(o: Occurrence, access: Access) -> bool
    ensures { result ≡ (is_op_read (access_of access) && is_target (event_of o)) }
{
    only_reads(access) && is_stored(o)
}

fn reads_reduced(o: Occurrence, access: Access) -> bool
    ensures { result ≡ (is_op_reduce (access_of access) && is_read (access_of access) (event_of o)) }
{
    reduces(access) && is_used(o, access)
}

fn is_no_sum(o: Occurrence, access: Access) -> bool
    ensures { result ≡ (is_op_inc (access_of access) && (is_target (event_of o) && opposite (is_sum (event_of o)))) }
{
    increments(access) && is_stored(o) && !is_added(o)
}

fn reads_unwritten(o: Occurrence, mode: Mode, covered: &Components) -> bool
    requires arg { mode.dim ≤ 0 ⊎ (o.arg < 16) }
    requires dim { mode.dim ≤ 64 }
    ensures { result ≡ (is_op_write (access_of mode.access)
        && (is_read (access_of mode.access) (event_of o) && is_unwritten mode.dim (has_component covered.now o.arg) (number_of o.index))) }
{
    only_writes(mode.access)
        && is_used(o, mode.access)
        && is_missing(covered, o.arg, mode.dim, o.index)
}

fn is_no_component(o: Occurrence, access: Access) -> bool
    ensures { result ≡ (is_op_write (access_of access) && is_unknown (number_of o.index)) }
{
    only_writes(access) && is_not_static(o.index)
}

fn is_no_extremum(o: Occurrence, access: Access) -> bool
    ensures { result ≡ (is_op_extremum (access_of access)
        && (is_target (event_of o) && opposite (is_extremum (access_of access) (event_of o)))) }
{
    takes_extremum(access) && is_stored(o) && !is_merged(o, access)
}

fn rules_found(
    o: Occurrence,
    mode: Mode,
    covered: &Components,
    found: Option<Breach>,
) -> Option<Breach>
    requires arg { mode.dim ≤ 0 ⊎ (o.arg < 16) }
    requires dim { mode.dim ≤ 64 }
    ensures { found_of result ≡ with_rules (has_component covered.now) (access_of mode.access) mode.dim (event_of o) (found_of found) }
{
    let access = mode.access;
    let a = with_rule(found, writes_read(o, access), Rule::WritesRead, o.at);
    let b = with_rule(a, reads_reduced(o, access), Rule::ReadsInc, o.at);
    let c = with_rule(b, is_no_sum(o, access), Rule::IncNotSum, o.at);
    let d = with_rule(
        c,
        reads_unwritten(o, mode, covered),
        Rule::ReadsUnwritten,
        o.at,
    );
    let e = with_rule(
        d,
        is_no_component(o, access),
        Rule::WriteIndexNotStatic,
        o.at,
    );
    let f = with_rule(e, is_beyond(mode.dim, o.index), Rule::LiteralIndexOut, o.at);
    with_rule(f, is_no_extremum(o, access), Rule::MinMaxForm, o.at)
}

/// What is found after an occurrence.
pub fn occurrence_found(
    o: Occurrence,
    modes: &[Mode],
    covered: &Components,
    found: Option<Breach>,
) -> Option<Breach>
    requires modes { AreSmall modes.now }
    ensures { found_of result ≡ event_found (map model_of modes.now) (has_component covered.now) (event_of o) (found_of found) }
{
    rules_found(o, mode_of(modes, o.arg), covered, found)
}
