// Kernels: the rules that they break, and what they are with each name resolved.

ghost use Rattle.std.specs.Prelude.{◌≡◌, ◌≤◌, length, map, IfOk};
ghost use Rattle.c_tree.specs.Places.{pos_of};
ghost use Rattle.c_tree.specs.View.{kernel_of};
ghost use Rattle.name_resolution.specs.First.{least_from};
ghost use Rattle.name_resolution.specs.Numbers.{StmtFits};
ghost use Rattle.kernel_model.specs.View.{rkernel_of, rstmt_of};
ghost use Rattle.name_resolution.specs.Kernels.{param_decl, params_breaches, after_params, kernel_breaches, kernel};

use crate::breaches::{Breach, TypeRule, note_if};
use crate::decls::{Decl, Sort, declare};
use crate::statements::{Walk, block, steps};
use crate::work::{is_heavy, scratch_of};
use c_tree::{Kernel, Param, Pos, pos_of};
use indexmap::IndexMap;
use kernel_model::types::{RBody, RKernel};
use op_num::{Name, OutOfMemory};
use std::alloc::{AllocError, Global};

// The declaration of the parameter with this number.
fn param_decl(number: u32, param: &Param) -> Decl
    ensures { result ≡ param_decl number param.now }
{
    Decl {
        at: param.name.at,
        sort: Sort::Param,
        is_const: param.is_const,
        of_file: false,
        is_constant: false,
        from: number,
        count: 1,
    }
}

// Declares the parameters, of which there are `count`.
fn declare_params(walk: &mut Walk, params: &[Param], count: u32) -> Result<(), OutOfMemory>
    requires { length params.now ≡ count }
    ensures first { IfOk result (λ _. walk.new.first ≡ least_from walk.old.first (params_breaches walk.old.own.entries 0 params.now)) }
    ensures own { IfOk result (λ _. walk.new.own.entries ≡ after_params walk.old.own.entries 0 params.now) }
    ensures next { IfOk result (λ _. walk.new.next ≡ walk.old.next) }
{
    for number in 0..count {
        let param = &params[number as usize];
        let decl = param_decl(number, param);
        declare(&mut walk.own, &mut walk.first, &param.name, decl)?;
    }
    Ok(())
}

// The places of the parameters.
fn param_places(alloc: Global, places: &[Pos], params: &[Param]) -> Result<Vec<Pos>, OutOfMemory>
    ensures { IfOk result (λ v. v.items ≡ map (λ p. pos_of places.now p.name.at) params.now) }
{
    params
        .iter()
        .map(|param| pos_of(places, param.name.at))
        .collect(alloc)
}

/// A kernel, behind these names of the file. What it is where it breaks a rule means nothing.
#[tactic(auto, using(crate::proofs::Firsts::least_append))]
pub fn kernel(
    alloc: Global,
    places: &[Pos],
    file: &IndexMap<Name, Decl>,
    first: &mut Option<Breach>,
    source: &Kernel,
) -> Result<RKernel, OutOfMemory>
    ensures fits { IfOk result (λ k. StmtFits (rstmt_of k.body.statement)) }
    ensures kernel { IfOk result (λ k. rkernel_of k ≡ kernel places.now file.now.entries (kernel_of source.now)) }
    ensures first { IfOk result (λ _. first.new ≡ least_from first.old (kernel_breaches file.now.entries (kernel_of source.now))) }
{
    let params = match u32::try_from(source.params.len()) {
        Ok(params) => params,
        Err(_) => return Err(AllocError),
    };
    let mut walk = Walk {
        own: IndexMap::new(alloc),
        next: 0,
        first: *first,
    };
    note_if(
        &mut walk.first,
        is_heavy(source),
        TypeRule::TooMuchWork,
        source.name.at,
    );
    declare_params(&mut walk, &source.params, params)?;
    let statements = steps(alloc, places, file, &mut walk, &source.body)?;
    *first = walk.first;
    Ok(RKernel {
        name: source.name.name.clone()?,
        params,
        scratch: scratch_of(source),
        body: RBody {
            param_places: param_places(alloc, places, &source.params)?,
            statement: block(statements),
        },
    })
}
