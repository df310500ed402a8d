// Owners, written.

ghost use Rattle.mesh_decl.specs.Owners.{AreOwners};
ghost use Rattle.bound_program.specs.Values.{bound_of};
ghost use Rattle.job_inputs.specs.Chains.{AnswersBy};
ghost use Rattle.tool_command.specs.ToolAnswers.{OwnersTold};

use crate::lines::refused_name;
use bound_program::Bound;
use command_words::answer_lines::{Answer, Failure, Halt};
use loop_plan::planned_program::Planned;
use mesh_decl::Owners;
use metis_text::owner_text::{WriteRefusal, write_partition};
use std::alloc::Global;

/// The answer that these owners are.
pub fn written<'a>(alloc: Global, bound: &Bound, owners: &Owners) -> Result<Answer, Halt<'a>>
    requires { AreOwners (bound_of bound.now).mesh owners.now }
    ensures { AnswersBy (OwnersTold (bound_of bound.now) owners.now) result }
{
    match write_partition(alloc, &bound.mesh, owners) {
        Ok(text) => Ok(Answer::Done(text)),
        Err(WriteRefusal::Unnamed { set }) => {
            let name = bound.mesh.set_name(set).bytes();
            Ok(refused_name(alloc, b"owners 1 name ", name)?)
        }
        Err(WriteRefusal::OutOfMemory) => Err(Halt::Failed(Failure::OutOfMemory)),
    }
}

/// The answer of telling the owners on the ranks of a plan.
pub fn told<'a>(alloc: Global, planned: &Planned<'_>) -> Result<Answer, Halt<'a>>
    ensures { AnswersBy (OwnersTold (bound_of planned.now.bound) planned.now.distribution.owners) result }
{
    written(alloc, planned.bound, &planned.distribution.owners)
}
