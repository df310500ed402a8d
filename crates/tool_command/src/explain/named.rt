// The files that words of `op2` name.
ghost use Rattle.std.specs.Prelude.{◌≡◌, true, [], ◌∷◌, ◌++◌, Some, None, map, option_map, string_bytes, IfOk, OnOk};
ghost use Rattle.command_words.specs.Words.{names_from, names_before, names_by, names_in_blocks, names_at, names_of, named_by};
ghost use Rattle.command_words.specs.Values.{stretch_in, parting_in, blocks_in, schedule_in, input_in, options_in, chain_options_in};
ghost use Rattle.command_words.specs.Values.{command_of};
ghost use Rattle.tool_command.specs.Named.{source_from, source_of, source_by, names_in, source_name};
ghost use Rattle.tool_command.specs.Named.{ProgramNamed, is_from_start, program_of, program_by, named_program, program_named};

use command_words::{
    Asked, Blocks, ChainOptions, Input, Options, Parting, Schedule, Stretch, WordsRefusal,
    read_words,
};
use op_num::OutOfMemory;
use std::alloc::{AllocError, Global};

/// A program over a mesh that words ask for: where the two come from, and whether its run begins where the program
/// does.
#[derive(Clone, Copy, Debug)]
pub struct Program<'a> {
    pub input: Input<'a>,
    pub from_start: bool,
}

/// The files that the words name, in the order in which `op2` reads them, that of the source, if there is one, and the
/// program, if the words ask for one.
#[derive(Debug, Drop)]
pub struct Named<'a> {
    pub files: Vec<&'a str>,
    pub source: Option<&'a str>,
    pub program: Option<Program<'a>>,
}

// Those that a source and a mesh come from.
fn push_input<'a>(names: &mut Vec<&'a str>, input: Input<'a>) -> Result<(), OutOfMemory>
    ensures { OnOk result (map (λ n. n.now) names.new.items ≡ map (λ n. n.now) names.old.items ++ names_from (input_in input.entry)) }
{
    if let Input::InFiles { source, mesh } = input {
        names.push(source)?;
        names.push(mesh)?;
    }
    Ok(())
}

// The one that tells a state, if one does.
fn push_stretch<'a>(names: &mut Vec<&'a str>, stretch: Stretch<'a>) -> Result<(), OutOfMemory>
    ensures { OnOk result (map (λ n. n.now) names.new.items
        ≡ map (λ n. n.now) names.old.items ++ names_before (stretch_in stretch.entry)) }
{
    match stretch {
        Stretch::From(name) => Ok(names.push(name)?),
        _ => Ok(()),
    }
}

// The one that tells owners, if one does.
fn push_parting<'a>(names: &mut Vec<&'a str>, parting: Parting<'a>) -> Result<(), OutOfMemory>
    ensures { OnOk result (map (λ n. n.now) names.new.items
        ≡ map (λ n. n.now) names.old.items ++ names_by (parting_in parting.entry)) }
{
    match parting {
        Parting::ByRule(_) => Ok(()),
        Parting::ByFile(name) => Ok(names.push(name)?),
    }
}

// The one that tells blocks and colours, if one does.
fn push_blocks<'a>(names: &mut Vec<&'a str>, blocks: Blocks<'a>) -> Result<(), OutOfMemory>
    ensures { OnOk result (map (λ n. n.now) names.new.items
        ≡ map (λ n. n.now) names.old.items ++ names_in_blocks (blocks_in blocks.entry)) }
{
    match blocks {
        Blocks::OfSize(_) => Ok(()),
        Blocks::AsPlanned(name) => Ok(names.push(name)?),
    }
}

// The one that has a schedule, if one does.
fn push_schedule<'a>(names: &mut Vec<&'a str>, schedule: Schedule<'a>) -> Result<(), OutOfMemory>
    ensures { OnOk result (map (λ n. n.now) names.new.items
        ≡ map (λ n. n.now) names.old.items ++ names_at (schedule_in schedule.entry)) }
{
    match schedule {
        Schedule::Written(name) => Ok(names.push(name)?),
        _ => Ok(()),
    }
}

// Those of the options of a plan.
fn push_options<'a>(names: &mut Vec<&'a str>, options: &Options<'a>) -> Result<(), OutOfMemory>
    ensures { OnOk result (map (λ n. n.now) names.new.items ≡ map (λ n. n.now) names.old.items
        ++ names_before (options_in options.now).stretch ++ names_by (options_in options.now).parting
        ++ names_in_blocks (options_in options.now).blocks ++ names_at (options_in options.now).schedule) }
{
    push_stretch(names, options.stretch)?;
    push_parting(names, options.parting)?;
    push_blocks(names, options.blocks)?;
    push_schedule(names, options.schedule)
}

// The name of the source, if it comes from a file.
fn source_from<'a>(input: Input<'a>) -> Option<&'a str>
    ensures { option_map (λ n. n.now) result ≡ source_from (input_in input.entry) }
{
    match input {
        Input::InFiles { source, .. } => Some(source),
        Input::OfSample { .. } => None,
    }
}

// Whether a run begins where the program does.
fn is_from_start(stretch: Stretch<'_>) -> bool
    ensures { result ≡ is_from_start (stretch_in stretch.entry) }
{
    match stretch {
        Stretch::Whole | Stretch::Before { .. } => true,
        Stretch::From(_) => false,
    }
}

// The files of a job on a plan.
fn named_by_plan<'a>(
    mut files: Vec<&'a str>,
    options: &Options<'a>,
    input: Input<'a>,
) -> Result<Named<'a>, OutOfMemory>
    requires { files.items ≡ [] }
    ensures names { IfOk result (λ n. names_in n ≡ names_from (input_in input.entry)
        ++ names_before (options_in options.now).stretch ++ names_by (options_in options.now).parting
        ++ names_in_blocks (options_in options.now).blocks ++ names_at (options_in options.now).schedule) }
    ensures source { IfOk result (λ n. source_name n ≡ source_from (input_in input.entry)) }
    ensures program { IfOk result (λ n. program_named n
        ≡ Some (record { input = input_in input.entry; from_start = is_from_start (options_in options.now).stretch })) }
{
    push_input(&mut files, input)?;
    push_options(&mut files, options)?;
    Ok(Named {
        files,
        source: source_from(input),
        program: Some(Program {
            input,
            from_start: is_from_start(options.stretch),
        }),
    })
}

// The files of a job on chains.
fn named_by_chains<'a>(
    mut files: Vec<&'a str>,
    options: &ChainOptions<'a>,
    input: Input<'a>,
) -> Result<Named<'a>, OutOfMemory>
    requires { files.items ≡ [] }
    ensures names { IfOk result (λ n. names_in n ≡ names_from (input_in input.entry)
        ++ names_by (chain_options_in options.now).parting) }
    ensures source { IfOk result (λ n. source_name n ≡ source_from (input_in input.entry)) }
    ensures program { IfOk result (λ n. program_named n ≡ Some (record { input = input_in input.entry; from_start = true })) }
{
    push_input(&mut files, input)?;
    push_parting(&mut files, options.parting)?;
    Ok(Named {
        files,
        source: source_from(input),
        program: Some(Program {
            input,
            from_start: true,
        }),
    })
}

// A source alone.
fn named_source<'a>(mut files: Vec<&'a str>, source: &'a str) -> Result<Named<'a>, OutOfMemory>
    requires { files.items ≡ [] }
    ensures names { IfOk result (λ n. names_in n ≡ source.now ∷ []) }
    ensures source { IfOk result (λ n. source_name n ≡ Some source.now) }
    ensures program { IfOk result (λ n. program_named n ≡ None) }
{
    files.push(source)?;
    Ok(Named {
        files,
        source: Some(source),
        program: None,
    })
}

// A mesh alone.
fn named_mesh<'a>(mut files: Vec<&'a str>, mesh: &'a str) -> Result<Named<'a>, OutOfMemory>
    requires { files.items ≡ [] }
    ensures names { IfOk result (λ n. names_in n ≡ mesh.now ∷ []) }
    ensures source { IfOk result (λ n. source_name n ≡ None) }
    ensures program { IfOk result (λ n. program_named n ≡ None) }
{
    files.push(mesh)?;
    Ok(Named {
        files,
        source: None,
        program: None,
    })
}

// The files of what is asked for.
fn named_in<'a>(alloc: Global, asked: Asked<'a>) -> Result<Named<'a>, OutOfMemory>
    ensures names { IfOk result (λ n. names_in n ≡ names_of (command_of asked.entry)) }
    ensures source { IfOk result (λ n. source_name n ≡ source_of (command_of asked.entry)) }
    ensures program { IfOk result (λ n. program_named n ≡ program_of (command_of asked.entry)) }
{
    let files = Vec::new(alloc);
    match asked {
        Asked::Plan { options, input, .. } => named_by_plan(files, &options, input),
        Asked::Chains { options, input, .. } => named_by_chains(files, &options, input),
        Asked::Convert { mesh, .. } => named_mesh(files, mesh),
        Asked::Translate { source } => named_source(files, source),
        Asked::Restore { source } => named_source(files, source),
        Asked::Usage | Asked::Version => Ok(Named {
            files,
            source: None,
            program: None,
        }),
    }
}

/// The files that the words name; none where they are not those of a command. An error is want of memory.
pub fn named_by<'a>(alloc: Global, words: &'a Vec<String>) -> Result<Named<'a>, OutOfMemory>
    ensures names { IfOk result (λ n. names_in n ≡ named_by (map string_bytes words.now.items)) }
    ensures source { IfOk result (λ n. source_name n ≡ source_by (map string_bytes words.now.items)) }
    ensures program { IfOk result (λ n. program_named n ≡ program_by (map string_bytes words.now.items)) }
{
    match read_words(alloc, words) {
        Ok(asked) => named_in(alloc, asked),
        Err(WordsRefusal::Usage) => Ok(Named {
            files: Vec::new(alloc),
            source: None,
            program: None,
        }),
        Err(WordsRefusal::OutOfMemory) => Err(AllocError),
    }
}
