// The fields of a loop.

ghost use Rattle.std.specs.Prelude.{◌≡◌, ◌<◌, ◌∷◌, [], IfOk, filter, length};
ghost use Rattle.loop_plan.specs.Needs.{AreOfDats};
ghost use Rattle.mesh_decl.specs.Mesh.{dat_count};
ghost use Rattle.plan_counts.specs.Table.{place_text, class_text, arg_text, makes_ordered, blamed, hundredths, kernel_name};
ghost use Rattle.plan_counts.specs.Parts.{is_on};

use bound_program::{Arg, Class, Mesh, Pos, RKernel, class_of};
use op_num::{OutOfMemory, put_u64};
use std::alloc::Global;

/// A place in the source.
pub fn place_text(alloc: Global, at: Pos) -> Result<Vec<u8>, OutOfMemory>
    ensures { IfOk result (λ v. v.items ≡ place_text at) }
{
    let mut text = Vec::new(alloc);
    put_u64(&mut text, at.line as u64)?;
    text.extend_from_slice(b":")?;
    put_u64(&mut text, at.column as u64)?;
    Ok(text)
}

/// The class of a loop.
pub fn class_text(class: Class) -> &'static [u8]
    ensures { result.now ≡ class_text class }
{
    match class {
        Class::Free => b"free",
        Class::Ordered => b"ordered",
    }
}

/// A number of hundredths.
pub fn hundredths(alloc: Global, number: u64) -> Result<Vec<u8>, OutOfMemory>
    ensures { IfOk result (λ v. v.items ≡ hundredths number) }
{
    let mut text = Vec::new(alloc);
    put_u64(&mut text, number / 100)?;
    text.extend_from_slice(b".")?;
    put_u64(&mut text, number % 100 / 10)?;
    put_u64(&mut text, number % 10)?;
    Ok(text)
}

// Whether an argument is on this dat.
fn is_on(dat: u32, arg: Arg) -> bool
    ensures { result ≡ is_on dat arg }
{
    match arg {
        Arg::Dat { dat: other, .. } => other == dat,
        Arg::Global { .. } => false,
    }
}

// The arguments on this dat.
fn args_on(alloc: Global, args: &[Arg], dat: u32) -> Result<Vec<Arg>, OutOfMemory>
    ensures { IfOk result (λ v. v.items ≡ filter (is_on dat) args.now) }
{
    let mut found = Vec::new(alloc);
    for arg in args {
        if is_on(dat, *arg) {
            found.push(*arg)?;
        }
    }
    Ok(found)
}

// Whether an argument makes a loop with all these Ordered: the arguments on its dat would do so alone.
fn makes_ordered(alloc: Global, all: &[Arg], arg: Arg) -> Result<bool, OutOfMemory>
    ensures { IfOk result (λ r. r ≡ makes_ordered all.now arg) }
{
    match arg {
        Arg::Dat { dat, .. } => {
            let own = args_on(alloc, all, dat)?;
            match class_of(&own) {
                Class::Free => Ok(false),
                Class::Ordered => Ok(true),
            }
        }
        Arg::Global { .. } => Ok(false),
    }
}

// The argument of this number, and its dat.
fn arg_text(alloc: Global, mesh: &Mesh, number: u64, arg: Arg) -> Result<Vec<u8>, OutOfMemory>
    requires { AreOfDats (dat_count mesh.now) (arg ∷ []) }
    ensures { IfOk result (λ v. v.items ≡ arg_text mesh.now number arg) }
{
    let mut text = Vec::new(alloc);
    match arg {
        Arg::Dat { dat, .. } => {
            put_u64(&mut text, number)?;
            text.extend_from_slice(b":")?;
            text.extend_from_slice(mesh.dat_name(dat).bytes())?;
        }
        Arg::Global { .. } => text.extend_from_slice(b"-")?,
    }
    Ok(text)
}

/// The first argument that makes a loop with these Ordered, by its number from 1 and its dat; a dash where none does.
/// It takes quadratic time in the arguments.
pub fn blamed(alloc: Global, mesh: &Mesh, args: &[Arg]) -> Result<Vec<u8>, OutOfMemory>
    requires { AreOfDats (dat_count mesh.now) args.now }
    ensures { IfOk result (λ v. v.items ≡ blamed mesh.now args.now 1 args.now) }
{
    let mut number = 1u64;
    let mut rest = args;
    while let [first, more @ ..] = rest {
        if makes_ordered(alloc, args, *first)? {
            return arg_text(alloc, mesh, number, *first);
        }
        number += 1;
        rest = more;
    }
    Ok(b"-".to_vec(alloc)?)
}

/// The name of a kernel.
pub fn kernel_name(kernels: &[RKernel], kernel: u32) -> &[u8]
    requires { kernel < length kernels.now }
    ensures { result.now ≡ kernel_name kernels.now kernel }
{
    kernels[kernel as usize].name.bytes()
}
