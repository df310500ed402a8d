// The graph of neighbours by a map.

ghost use Rattle.bound_program.specs.Values.{bound_of};
ghost use Rattle.job_inputs.specs.Chains.{AnswersBy};
ghost use Rattle.tool_command.specs.ToolAnswers.{GraphAnswers};

use crate::lines::refused_name;
use bound_program::Bound;
use command_words::answer_lines::{Answer, Halt};
use metis_text::neighbour_graph::write_graph;
use std::alloc::Global;

/// The answer of writing the graph of neighbours by the map of this name.
pub fn graphed<'a>(alloc: Global, bound: &Bound, map: &str) -> Result<Answer, Halt<'a>>
    ensures { AnswersBy (GraphAnswers map.now (bound_of bound.now)) result }
{
    match bound.mesh.map_named(map.as_bytes()) {
        Some(number) => Ok(Answer::Done(write_graph(alloc, &bound.mesh, number)?)),
        None => Ok(refused_name(alloc, b"graph 1 name ", map.as_bytes())?),
    }
}
