// The accesses of kernels: each loop's kernel keeps to those of its arguments.

ghost use Rattle.std.specs.Prelude.{◌≡◌, ◌<◌, ℕ, List, map, length, All, Ok, Err, OnOk, IfOk, IfErr};
ghost use Rattle.kernel_model.specs.declared.types.kernels.RKernel.{RKernel};
ghost use Rattle.kernel_model.specs.Obeys as model;
ghost use Rattle.kernel_model.specs.Refusals.{Rule, IsRefusal, number_of};
ghost use Rattle.access_check.specs.Modes.{model_of};
ghost use Rattle.access_check.specs.Refusals.{Refuses};
ghost use Rattle.bound_program.specs.Values.{bound_of, site_of};
ghost use Rattle.bound_program.specs.Fits.{Fits, SiteFits, ArgFits};
ghost use Rattle.run_model.specs.Arguments as run;
ghost use Rattle.command_words.specs.Refusal.{BadAccess};
ghost use Rattle.answers.specs.Judgements.{AccessesAre, SiteObeys, SiteRefuses};
ghost use Rattle.command_words.specs.Halts.{StopsWhere};
ghost use Rattle.job_inputs.specs.Inputs.{IsAccessRefusal};
ghost use Rattle.job_inputs.specs.Known.{AreObeyed};

use crate::known_uses::{KnownUses, are_known, note_uses};
use access_check::{AccessRefusal, Mode, check};
use bound_program::{Arg, Bound, Site};
use command_words::answer_lines::{Failure, Halt, Refusal};
use indexmap::IndexSet;
use op_num::OutOfMemory;
use std::alloc::Global;

/// Judges the kernels of all loops, in the order of the text.
pub fn judge_accesses<'a>(alloc: Global, bound: &Bound) -> Result<(), Halt<'a>>
    requires { Fits (bound_of bound.now) }
    ensures ok { OnOk result (All (SiteObeys (bound_of bound.now)) (bound_of bound.now).sites) }
    ensures err { IfErr result (StopsWhere (λ r. AccessesAre (bound_of bound.now) (Err r))) }
{
    let mut known = IndexSet::new(alloc);
    for site in &bound.sites {
        judge_site(alloc, bound, &mut known, site)?;
    }
    Ok(())
}

// Judges the kernel of a loop by the modes of its arguments, where they aren't all known to be obeyed.
fn judge_site<'a>(
    alloc: Global,
    bound: &Bound,
    known: &mut KnownUses,
    site: &Site,
) -> Result<(), Halt<'a>>
    requires fits { Fits (bound_of bound.now) }
    requires site { SiteFits (bound_of bound.now) (site_of site.now) }
    requires known { AreObeyed (bound_of bound.now).kernels known.old.keys }
    ensures known { OnOk result (AreObeyed (bound_of bound.now).kernels known.new.keys) }
    ensures ok { OnOk result (SiteObeys (bound_of bound.now) (site_of site.now)) }
    ensures err { IfErr result (StopsWhere (IsAccessRefusal (SiteRefuses (bound_of bound.now) (site_of site.now)))) }
{
    let modes = modes_of(alloc, bound, site)?;
    if are_known(known, site.kernel, &modes) {
        return Ok(());
    }
    match check(alloc, &bound.kernels[site.kernel as usize], &modes) {
        Ok(()) => Ok(note_uses(known, site.kernel, &modes)?),
        Err(refusal) => Err(disobeyed(refusal)),
    }
}

// The access of each argument, and how many cells it reaches.
fn modes_of(alloc: Global, bound: &Bound, site: &Site) -> Result<Vec<Mode>, OutOfMemory>
    requires fits { Fits (bound_of bound.now) }
    requires site { SiteFits (bound_of bound.now) (site_of site.now) }
    ensures { IfOk result (λ modes. map model_of modes.items ≡ run.modes_of (bound_of bound.now) (site_of site.now)) }
{
    let mut modes = Vec::new(alloc);
    for arg in &site.args {
        modes.push(mode_of(bound, arg))?;
    }
    Ok(modes)
}

fn mode_of(bound: &Bound, arg: &Arg) -> Mode
    requires fits { Fits (bound_of bound.now) }
    requires arg { (set : ℕ) × ArgFits (bound_of bound.now) set arg.now }
    ensures { model_of result ≡ run.mode_of (bound_of bound.now) arg.now }
{
    match *arg {
        Arg::Dat { dat, access, .. } => {
            let (_, dim) = bound.mesh.dat_shape(dat);
            Mode { access, dim }
        }
        Arg::Global { var, access } => Mode {
            access,
            dim: bound.vars[var as usize].start.as_slice().len() as u32,
        },
    }
}

// A kernel that breaks a rule on accesses.
fn disobeyed<'a>(refusal: AccessRefusal) -> Halt<'a>
    ensures { (k : RKernel) (modes : List model.Mode) → Refuses k modes refusal → StopsWhere (IsAccessRefusal (IsRefusal k modes)) result }
{
    let (number, at) = match refusal {
        AccessRefusal::WritesRead { at } => (1, at),
        AccessRefusal::ReadsInc { at } => (2, at),
        AccessRefusal::IncNotSum { at } => (3, at),
        AccessRefusal::ReadsUnwritten { at } => (4, at),
        AccessRefusal::NotAllWritten { at } => (5, at),
        AccessRefusal::WriteIndexNotStatic { at } => (6, at),
        AccessRefusal::LiteralIndexOut { at } => (7, at),
        AccessRefusal::MinMaxForm { at } => (8, at),
        AccessRefusal::OutOfMemory => return Halt::Failed(Failure::OutOfMemory),
    };
    Halt::Refused(Refusal::BadAccess { number, at })
}
