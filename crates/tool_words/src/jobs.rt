// The jobs: what is asked for by the job's name and the words behind it.

ghost use Rattle.std.specs.Prelude.{◌≡◌, option_map};
ghost use Rattle.tool_words.specs.Words.{by_name, where_so, picked, graphed, planned, earlier_than};
ghost use Rattle.tool_words.specs.Words.{has_metis_alone, has_no_option, has_picture_alone, has_grid_alone, has_plain_alone};
ghost use Rattle.tool_words.specs.Words.{taken, owned, counted, Draws, Grids, pictured};
ghost use Rattle.tool_words.specs.Values.{command_of, given_of, plan_job_of};

use crate::asked::{Asked, PlanJob, ProgramJob};
use crate::conversions::converted;
use crate::given::{
    Given, has_grid_alone, has_metis_alone, has_no_option, has_picture_alone, has_plain_alone,
    has_ranks_alone,
};
use crate::pictures::picture_in;
use command_words::{chain_options_of, options_of};
use op_num::read_u64;

/// What is asked for by the job's name.
pub fn by_name<'a>(job: &str, given: &Given<'a>) -> Option<Asked<'a>>
    ensures { option_map command_of result ≡ by_name job.now (given_of given.now) }
{
    if job == "pick" {
        picked(given)
    } else if job == "graph" {
        graphed(given)
    } else if job == "owners" {
        owned(given)
    } else if job == "stat" {
        counted(given)
    } else if job == "draw" {
        drawn(given)
    } else if job == "vtk" {
        gridded(given)
    } else if job == "from-gmsh" {
        converted(given)
    } else {
        None
    }
}

// How many come before the one of a number from 1 on, below 2^32, in decimal digits; none where no word says which.
fn earlier_than(word: Option<&str>) -> Option<u64>
    ensures { result ≡ earlier_than (option_map (λ s. s.now) word.entry) }
{
    let Some(word) = word else {
        return Some(0);
    };
    let Ok(number) = read_u64(word.as_bytes()) else {
        return None;
    };
    if number > 0 && number < 4_294_967_296 {
        Some(number - 1)
    } else {
        None
    }
}

// SOURCE MESH OUTPUT FILE [N].
fn picked<'a>(given: &Given<'a>) -> Option<Asked<'a>>
    ensures { option_map command_of result ≡ where_so (has_no_option (given_of given.now))
        (picked (given_of given.now).first (given_of given.now).second (given_of given.now).third (given_of given.now).fourth
        (given_of given.now).fifth) }
{
    if !has_no_option(given) {
        return None;
    }
    let (Some(source), Some(mesh), Some(output), Some(file)) = (
        given.first,
        given.second,
        given.third,
        given.fourth,
    ) else {
        return None;
    };
    let earlier = earlier_than(given.fifth)?;
    let job = ProgramJob::Picks {
        output,
        file,
        earlier,
    };
    Some(Asked::OnProgram { job, source, mesh })
}

// SOURCE MESH MAP.
fn graphed<'a>(given: &Given<'a>) -> Option<Asked<'a>>
    ensures { option_map command_of result ≡ where_so (has_no_option (given_of given.now))
        (graphed (given_of given.now).first (given_of given.now).second (given_of given.now).third (given_of given.now).fourth) }
{
    if !has_no_option(given) {
        return None;
    }
    let (Some(source), Some(mesh), Some(map), None) = (
        given.first,
        given.second,
        given.third,
        given.fourth,
    ) else {
        return None;
    };
    let job = ProgramJob::Graphs { map };
    Some(Asked::OnProgram { job, source, mesh })
}

// SOURCE MESH, with the options of a plan.
fn planned<'a>(job: PlanJob<'a>, given: &Given<'a>) -> Option<Asked<'a>>
    ensures { option_map command_of result ≡ planned (plan_job_of job.entry) (given_of given.now).first (given_of given.now).second
        (given_of given.now).third (given_of given.now).planning }
{
    let (Some(source), Some(mesh), None) = (given.first, given.second, given.third) else {
        return None;
    };
    let options = options_of(&given.planning)?;
    Some(Asked::OnPlan {
        job,
        options,
        source,
        mesh,
    })
}

// SOURCE MESH, with a partitioner's text for a set, and the number of ranks.
fn taken<'a>(file: &'a str, set: &'a str, given: &Given<'a>) -> Option<Asked<'a>>
    ensures { option_map command_of result ≡ taken file.now set.now (given_of given.now).first (given_of given.now).second
        (given_of given.now).third (given_of given.now).planning }
{
    let (Some(source), Some(mesh), None) = (given.first, given.second, given.third) else {
        return None;
    };
    if !has_ranks_alone(&given.planning) {
        return None;
    }
    let ranks = chain_options_of(&given.planning)?.ranks;
    let job = ProgramJob::TakesOwners { ranks, file, set };
    Some(Asked::OnProgram { job, source, mesh })
}

// Owners of a plan, or out of a partitioner's text.
fn owned<'a>(given: &Given<'a>) -> Option<Asked<'a>>
    ensures { option_map command_of result ≡ where_so (has_metis_alone (given_of given.now).own)
        (owned (given_of given.now).own.metis (given_of given.now).own.set (given_of given.now)) }
{
    if !has_metis_alone(&given.own) {
        return None;
    }
    match (given.own.metis, given.own.set) {
        (None, None) => planned(PlanJob::TellsOwners, given),
        (Some(file), Some(set)) => taken(file, set, given),
        _ => None,
    }
}

// The same for what a plan costs.
fn counted<'a>(given: &Given<'a>) -> Option<Asked<'a>>
    ensures { option_map command_of result ≡ where_so (has_plain_alone (given_of given.now).own) (counted (given_of given.now)) }
{
    if !has_plain_alone(&given.own) {
        return None;
    }
    let plain = given.own.plain;
    planned(PlanJob::Counts { plain }, given)
}

// A picture drawn.
fn drawn<'a>(given: &Given<'a>) -> Option<Asked<'a>>
    ensures { option_map command_of result
        ≡ where_so (has_picture_alone (given_of given.now).own) (pictured Draws (given_of given.now)) }
{
    if !has_picture_alone(&given.own) {
        return None;
    }
    let picture = picture_in(&given.own)?;
    planned(PlanJob::Draws { picture }, given)
}

// The grid for VTK.
fn gridded<'a>(given: &Given<'a>) -> Option<Asked<'a>>
    ensures { option_map command_of result
        ≡ where_so (has_grid_alone (given_of given.now).own)
        (pictured (λ p. Grids p (given_of given.now).own.output) (given_of given.now)) }
{
    if !has_grid_alone(&given.own) {
        return None;
    }
    let picture = picture_in(&given.own)?;
    let output = given.own.output;
    planned(PlanJob::Grids { picture, output }, given)
}
