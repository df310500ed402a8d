// Names and types of a whole source.

ghost use Rattle.std.specs.Prelude.{◌≡◌, ◌<◌, ◌^◌, ℕ, List, [], None, Ok, Err, IfOk, length};
ghost use Rattle.c_tree.specs.Tree.{ProgramTree};
ghost use Rattle.c_tree.specs.Reads.{Reads};
ghost use Rattle.c_tree.specs.View.{program_of, hosts_of};
ghost use Rattle.kernel_model.specs.Resolved.{IsResolvedProgram};
ghost use Rattle.name_resolution.specs.Numbers.{KernelsFit};
ghost use Rattle.name_resolution.specs.First.{least_from};
ghost use Rattle.name_resolution.specs.Programs.{Answers, Outcome, Resolves, breaches, resolved, refusal_of};
ghost use Rattle.kernel_model.specs.declared.types.kernels.Resolved.{Resolved as Kernels};
ghost use Rattle.kernel_model.specs.View.{resolved_of};
ghost use Rattle.name_resolution.specs.declared.refusals.TypeRefusal.TheVariants.{OutOfMemory};
ghost use Rattle.name_resolution.specs.Mains.{named_after_all, hosts_breaches};

use crate::breaches::{Breach, TypeRule};
use crate::decls::Decl;
use crate::files::{FileWalk, constants, tops};
use crate::hosts::{MainWalk, hosts};
use crate::refusals::TypeRefusal;
use c_tree::{Host, Pos, Program, pos_of};
use indexmap::{IndexMap, IndexSet};
use kernel_model::types::Resolved;
use op_num::{Name, OutOfMemory};
use std::alloc::Global;

// The names of the file that an `op_decl_const` in `main` names: those that no name of `main` hides there.
fn named_in(alloc: Global, body: &[Host]) -> Result<IndexSet<Name>, OutOfMemory>
    ensures { IfOk result (λ named. named.keys ≡ named_after_all [] [] (hosts_of body.now)) }
{
    let none = IndexMap::new(alloc);
    let mut main = MainWalk {
        own: IndexMap::new(alloc),
        fixed: IndexSet::new(alloc),
        named: IndexSet::new(alloc),
        first: None,
    };
    hosts(&none, &mut main, body)?;
    Ok(main.named)
}

// The first breach of those so far and of those of `main`.
fn judge_main(
    alloc: Global,
    file: &IndexMap<Name, Decl>,
    first: Option<Breach>,
    body: &[Host],
) -> Result<Option<Breach>, OutOfMemory>
    ensures { IfOk result (λ r. r ≡ least_from first (hosts_breaches file.now.entries [] [] (hosts_of body.now))) }
{
    let mut main = MainWalk {
        own: IndexMap::new(alloc),
        fixed: IndexSet::new(alloc),
        named: IndexSet::new(alloc),
        first,
    };
    hosts(file, &mut main, body)?;
    Ok(main.first)
}

// The kernels and constants, and the first breach.
#[tactic(auto, using(crate::proofs::Firsts::least_append))]
fn walked(alloc: Global, program: &Program) -> Result<(Resolved, Option<Breach>), OutOfMemory>
    ensures fits { IfOk result (λ r. KernelsFit (resolved_of r.0).kernels) }
    ensures tree { IfOk result (λ r. resolved_of r.0 ≡ resolved (program_of program.now)) }
    ensures first { IfOk result (λ r. r.1 ≡ least_from None (breaches (program_of program.now))) }
{
    let named = named_in(alloc, &program.main.body)?;
    let mut walk = FileWalk {
        names: IndexMap::new(alloc),
        constant_cells: 0,
        kernels: Vec::new(alloc),
        first: None,
    };
    tops(alloc, &program.places, &mut walk, &named, &program.tops)?;
    let first = judge_main(alloc, &walk.names, walk.first, &program.main.body)?;
    let consts = constants(alloc, &walk.names)?;
    let resolved = Resolved {
        kernels: walk.kernels,
        consts,
    };
    Ok((resolved, first))
}

// The refusal of a breach.
fn refused(places: &[Pos], breach: Breach) -> TypeRefusal
    ensures { result ≡ refusal_of places.now breach }
{
    let at = pos_of(places, breach.at);
    match breach.rule {
        TypeRule::UnknownName => TypeRefusal::UnknownName { at },
        TypeRule::DuplicateName => TypeRefusal::DuplicateName { at },
        TypeRule::NotAnArray => TypeRefusal::NotAnArray { at },
        TypeRule::NotAScalar => TypeRefusal::NotAScalar { at },
        TypeRule::AssignsCounter => TypeRefusal::AssignsCounter { at },
        TypeRule::AssignsConst => TypeRefusal::AssignsConst { at },
        TypeRule::TooMuchWork => TypeRefusal::TooMuchWork { at },
    }
}

// What a source comes to.
fn outcome(alloc: Global, program: &Program) -> Result<Resolved, TypeRefusal>
    ensures found { Answers (Resolves (program_of program.now)) result }
    ensures resolved { IfOk result IsResolvedProgram }
{
    match walked(alloc, program) {
        Err(_) => Err(TypeRefusal::OutOfMemory),
        Ok((resolved, None)) => Ok(resolved),
        Ok((_, Some(breach))) => Err(refused(&program.places, breach)),
    }
}

/// Resolves the names of a source (docs/LANGUAGE.md, "Names"; scopes as in ISO C 6.2.1): its kernels with each name
/// resolved, and the constants that they read. A source that breaks a rule is refused for the first one that it breaks:
/// that at the least token, and there the one with the lowest number. The refusal has the place of the name.
/// `OutOfMemory` comes only where memory runs out, or where a kernel has more parameters or the constants have more
/// cells than a `u32` counts.
pub fn resolve(alloc: Global, program: &Program) -> Result<Resolved, TypeRefusal>
    // What is answered is what the source comes to,
    ensures found { Answers (Resolves (program_of program.now)) result }
    // and what it comes to is what is answered, unless memory runs out.
    ensures only { (o : Outcome) → Resolves (program_of program.now) o → Answers (λ x. x ≡ o) result }
    // All that the kernels name is there, and no counter is stored to in its `for`.
    ensures resolved { IfOk result IsResolvedProgram }
{
    outcome(alloc, program)
}

/// A law: a source comes to an outcome, and no refusal is want of memory. There are values of the machine's types that
/// have the resolved trees of a source that was read.
pub fn some_answer()
    ensures some { (p : ProgramTree) → (o : Outcome) × Resolves p o }
    ensures causes { (p : ProgramTree) → ¬ Resolves p (Err OutOfMemory) }
    ensures kernels { (bytes : List ℕ) (p : ProgramTree) → Reads bytes p → length bytes < 2 ^ 63 → (r : Kernels)
        × (resolved_of r ≡ resolved p) }
{
    c_tree::lexer::tokens_are_few();
}

/// A law: the kernels and constants that a source comes to are those of a resolved program, where the numbers of the
/// kernels are of 32 bits.
pub fn kernels_are_resolved()
    ensures { (p : ProgramTree) (r : Kernels)
        → Resolves p (Ok (resolved_of r)) → KernelsFit (resolved_of r).kernels → IsResolvedProgram r }
{}

/// A law: a source comes to one outcome, its kernels and constants or a refusal.
pub fn one_answer()
    ensures { (p : ProgramTree) (a b : Outcome) → Resolves p a → Resolves p b → a ≡ b }
{}
