// The limits of sizes.

ghost use Rattle.std.specs.Prelude.{◌≡◌};
ghost use Rattle.command_words.specs.Lines.{most, limit_name};
ghost use Rattle.command_words.specs.Halts.{limit_of};

use crate::answer_lines::refusals::Limit;
use bound_program::{
    MAX_ARGUMENTS, MAX_CELLS, MAX_DATS, MAX_DIM, MAX_MAPS, MAX_SETS, MAX_SIZE, MAX_TRACE,
    MAX_WEIGHT,
};
use loop_plan::MAX_STEPS;
use mesh_decl::{MESH_BYTES, MESH_VALUES};
use schedule_steps::text::SCHEDULE_STEPS;

/// The most bytes of a source file.
pub const SOURCE_BYTES: u64 = 1_048_576;

/// The most bytes of the file of a state.
pub const STATE_BYTES: u64 = 268_435_456;

/// The most bytes of the file of a partition.
pub const PARTITION_BYTES: u64 = 67_108_864;

/// The most bytes of the file of a plan.
pub const PLAN_BYTES: u64 = 268_435_456;

/// The most bytes of the file of a schedule.
pub const SCHEDULE_BYTES: u64 = 268_435_456;

/// The greatest size that the limit allows.
pub fn most(limit: Limit) -> u64
    ensures { result ≡ most (limit_of limit) }
{
    match limit {
        Limit::SourceBytes => SOURCE_BYTES,
        Limit::MeshBytes => MESH_BYTES,
        Limit::MeshValues => MESH_VALUES,
        Limit::Sets => MAX_SETS,
        Limit::Maps => MAX_MAPS,
        Limit::Dats => MAX_DATS,
        Limit::SetSize => MAX_SIZE,
        Limit::Dim => MAX_DIM,
        Limit::MeshCells => MAX_CELLS,
        Limit::Arguments => MAX_ARGUMENTS,
        Limit::Trace => MAX_TRACE,
        Limit::PrintWeight => MAX_WEIGHT,
        Limit::StateBytes => STATE_BYTES,
        Limit::PartitionBytes => PARTITION_BYTES,
        Limit::PlanBytes => PLAN_BYTES,
        Limit::Steps => MAX_STEPS,
        Limit::ScheduleBytes => SCHEDULE_BYTES,
        Limit::ScheduleSteps => SCHEDULE_STEPS,
    }
}

/// The name of the limit, as lines have it.
pub fn limit_name(limit: Limit) -> &'static [u8]
    ensures { result.now ≡ limit_name (limit_of limit) }
{
    match limit {
        Limit::SourceBytes => b"source-bytes",
        Limit::MeshBytes => b"mesh-bytes",
        Limit::MeshValues => b"mesh-values",
        Limit::Sets => b"sets",
        Limit::Maps => b"maps",
        Limit::Dats => b"dats",
        Limit::SetSize => b"set-size",
        Limit::Dim => b"dim",
        Limit::MeshCells => b"mesh-cells",
        Limit::Arguments => b"arguments",
        Limit::Trace => b"trace",
        Limit::PrintWeight => b"print-weight",
        Limit::StateBytes => b"state-bytes",
        Limit::PartitionBytes => b"partition-bytes",
        Limit::PlanBytes => b"plan-bytes",
        Limit::Steps => b"steps",
        Limit::ScheduleBytes => b"schedule-bytes",
        Limit::ScheduleSteps => b"schedule-steps",
    }
}
