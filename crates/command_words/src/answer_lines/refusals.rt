// What the program can refuse, and what ends a call before there is an answer.

use c_tree::Pos;
use op_num::Name;
use schedule_steps::Step;
use std::alloc::AllocError;

/// A size that has a limit.
#[derive(Clone, Copy, PartialEq, Eq, Debug)]
pub enum Limit {
    SourceBytes,
    MeshBytes,
    MeshValues,
    Sets,
    Maps,
    Dats,
    SetSize,
    Dim,
    MeshCells,
    Arguments,
    Trace,
    PrintWeight,
    StateBytes,
    PartitionBytes,
    PlanBytes,
    Steps,
    ScheduleBytes,
    ScheduleSteps,
}

/// A refusal: one variant for each line that the program writes about its words and its files.
#[derive(Debug, Drop)]
pub enum Refusal<'a> {
    /// The words are not those of a command.
    Usage,
    /// The file of that name isn't there.
    CannotRead(&'a str),
    /// The source has no tokens.
    NoTokens {
        number: u8,
        at: Pos,
    },
    /// The source has no tree.
    NoTree {
        at: Pos,
    },
    /// The tree of the source has too many levels.
    TooDeep {
        at: Pos,
    },
    /// A rule on names and types is broken.
    BadName {
        number: u8,
        at: Pos,
    },
    /// The source can't be bound to the mesh.
    BadBinding {
        number: u8,
        at: Pos,
    },
    /// An entry of the map of that name is no element.
    BadTarget {
        at: Pos,
        map: Name,
        element: u32,
        place: u32,
    },
    /// A kernel doesn't keep to the accesses of its arguments.
    BadAccess {
        number: u8,
        at: Pos,
    },
    /// The mesh text spells no entries.
    BadMesh {
        number: u8,
        line: u32,
    },
    /// The program can't be cut before the item of that number.
    BadCut {
        item: u32,
    },
    /// The text of a state tells none of the program.
    BadState {
        number: u8,
        line: u64,
    },
    /// No dat or no map has the name that owners or new numbers are asked for by.
    BadPart(&'a [u8]),
    /// The text of a partition spells no owners of the mesh.
    BadPartition {
        number: u8,
        line: u32,
    },
    /// The text of a plan gives none of the program.
    BadPlan {
        number: u8,
        line: u32,
    },
    /// The text of a schedule spells no steps.
    BadSchedule {
        number: u8,
        line: u32,
    },
    /// A step of a schedule that the plan hasn't, or that was taken.
    BadStep {
        number: u8,
        line: u32,
        step: Step,
    },
    /// A step of a schedule before one that has to come first.
    EarlyStep {
        line: u32,
        step: Step,
        missing: Step,
    },
    /// A step of the plan that a schedule hasn't; its text ends on that line.
    LeftStep {
        line: u32,
        missing: Step,
    },
    /// A source can't be translated or restored.
    BadStub {
        number: u8,
        at: Pos,
    },
    /// A size is beyond its limit.
    BeyondLimit {
        limit: Limit,
        size: u64,
    },
}

/// What ends a call that has no answer: a file could not be read, or memory ran out.
#[derive(Clone, Copy, PartialEq, Eq, Debug)]
pub enum Failure<'a> {
    /// The file of that name could not be read.
    Unread(&'a str),
    /// Memory ran out.
    OutOfMemory,
}

/// What ends a judgement that gives nothing.
#[derive(Debug, Drop)]
pub enum Halt<'a> {
    /// The words or a file are refused.
    Refused(Refusal<'a>),
    /// There is no answer.
    Failed(Failure<'a>),
}

impl<'a> From<AllocError> for Halt<'a> {
    ghost use Rattle.std.specs.Prelude.{◌≡◌};
    ghost use Rattle.command_words.specs.declared.answer_lines.refusals.Halt.TheVariants.{Failed};
    ghost use Rattle.command_words.specs.declared.answer_lines.refusals.Failure.TheVariants.{OutOfMemory};

    ghost from_gives = { λ _ e. e ≡ Failed OutOfMemory };

    fn from(_: AllocError) -> Halt<'a> {
        Halt::Failed(Failure::OutOfMemory)
    }
}
