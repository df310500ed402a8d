// Laws of the definitions, each as the contract of a function that does nothing.

ghost use Rattle.std.specs.Prelude.{ℕ};
ghost use Rattle.answers.specs.Endings.{Call, Ends, IsComplete, IsUsage, IsUnread, IsShown, IsSilent, AreReported};
ghost use Rattle.answers.specs.Laws.{AnswersAgree, AnswersExist};
ghost use Rattle.answers.specs.Restarts.{RestartsAreWhole};
ghost use Rattle.answers.specs.OnCells.{RunsAnswerOnCells};
ghost use Rattle.answers.specs.FirstValues.{BoundProgramsStartInRange, ChosenProgramsStartInRange};

/// A law: for a program that fits, what its run on whole arrays answers is what the run that the theorem on schedules
/// is about prints, with its first fault, or with the dump behind it.
pub fn runs_answer_on_cells()
    ensures { RunsAnswerOnCells }
{
    run_model::sequential_run::runs_are_one();
}

/// A law: the values that a bound program begins with are numbers of 32 bits, where its source was read and its entries
/// are those of a mesh text.
pub fn bound_programs_start_in_range()
    ensures { BoundProgramsStartInRange }
{}

/// A law: so are those of a program's head before an item, and those of its tail from a state on that a text tells,
/// where the program's are.
pub fn chosen_programs_start_in_range()
    ensures { ChosenProgramsStartInRange }
{}

/// A law: any two answers to the same words over the same files have the same status and the same bytes for the output,
/// and the same line, unless the source has tokens and no tree.
pub fn answers_agree()
    ensures { AnswersAgree }
{
    command_words::options_are_within();
    c_tree::lexer::one_outcome();
    c_reader::one_tree();
    op_translate::one_translation();
    op_translate::one_restoration();
    name_resolution::one_answer();
    mesh_decl::text::one_outcome();
    kernel_model::walk_finds();
    kernel_model::rules_are_broken();
    kernel_model::kernels_are_trees();
    partition::distribute::one_numbers();
    partition::distribute::one_owners();
    partition::distribute::one_distribution();
    loop_plan::least_colours_are_one();
    loop_plan::one_plan();
    loop_plan::one_plan_text();
    loop_plan::one_step_count();
    checkpoint::state_texts::one_state();
    plan_cert::one_refusal();
    plan_cert::none_is_refused();
    plan_cert::plans_are_alike();
    plan_cert::no_kernel_is_read();
    schedule_steps::text::one_outcome();
    schedule_steps::drawn_once();
    schedule_steps::tests_decide();
    runs_answer_on_cells();
    bound_plan::one_program();
    bound_plan::one_dump();
    chain_model::bound_chains::chains_are_one();
}

/// A law: no words and files are without an answer.
pub fn answers_exist()
    ensures { AnswersExist }
{
    command_words::options_are_within();
    c_tree::lexer::some_outcome();
    c_tree::lexer::tokens_are_few();
    c_tree::lexer::one_outcome();
    c_reader::one_depth();
    c_reader::deep_is_far();
    name_resolution::some_answer();
    mesh_decl::text::one_outcome();
    loop_bind::refusals_have_causes();
    loop_bind::resolved_sources_are();
    loop_bind::spelled_entries_fit();
    loop_bind::bound_programs_fit();
    loop_bind::bound_maps_are_narrow();
    kernel_model::walk_finds();
    kernel_model::rules_are_broken();
    partition::part_text::one_outcome();
    loop_plan::plan_exists::some_numbers();
    loop_plan::plan_exists::some_owners();
    loop_plan::plan_exists::outcomes_fit();
    loop_plan::plan_exists::some_distribution();
    loop_plan::plan_exists::narrow_meshes_fit_memory();
    loop_plan::plan_exists::some_plan();
    plan_cert::some_outcome();
    checkpoint::heads_fit();
    checkpoint::tails_fit();
    checkpoint::state_texts::some_state();
    schedule_steps::drawn_exists();
    schedule_steps::text::one_outcome();
    step_judge::taken_lists_are_accepted();
}

/// A law: where a call ends, its status is that of any answer over files that tell it, unless memory ran out or a count
/// of faults rose.
pub fn calls_are_complete()
    ensures { (c : Call) (status : ℕ) → Ends c status → IsComplete c status }
{
    answers_agree();
}

/// A law: where a call ends, its status is 2 exactly where the words are refused, unless memory ran out.
pub fn usage_is_of_words()
    ensures { (c : Call) (status : ℕ) → Ends c status → IsUsage c status }
{}

/// A law: where a call ends, its status is 3 only where the count of the shelf rose, or where the files that are told
/// lack a name that the words name.
pub fn unread_files_are_named()
    ensures { (c : Call) (status : ℕ) → Ends c status → IsUnread c status }
{}

/// A law: where a call ends, what stands on the output is what any answer over files that tell it has, whole or, where
/// the count of the output rose, a front of it.
pub fn calls_show_their_answers()
    ensures { (c : Call) (status : ℕ) → Ends c status → IsShown c status }
{
    answers_agree();
}

/// A law: where a call ends with another status than 1, 3 and 4, the line for the errors is that of any answer over
/// files that tell it, unless the source has tokens and no tree.
pub fn calls_report_their_answers()
    ensures { (c : Call) (status : ℕ) → Ends c status → AreReported c status }
{
    answers_agree();
}

/// A law: where a call ends with another status than 0, 4 and 9, nothing is written to the output.
pub fn others_write_nothing()
    ensures { (c : Call) (status : ℕ) → Ends c status → IsSilent c status }
{}

/// A law: what a run prints that stops before an item, and then one that goes on from the state that it wrote, is what
/// the whole run prints, with the same fault or none, whatever the options of the three; or both the first and the
/// whole stop before the item, alike.
pub fn restarts_are_whole()
    ensures { RestartsAreWhole }
{
    runs_answer_on_cells();
    command_words::heads_are_not_dumped();
    c_reader::one_tree();
    name_resolution::one_answer();
    mesh_decl::text::one_outcome();
    loop_bind::resolved_sources_are();
    loop_bind::bound_programs_leave_constants();
    loop_bind::bound_names_are_names();
    run_model::runs_keep_range();
    checkpoint::heads_stop();
    checkpoint::heads_print_states();
    checkpoint::tails_go_on();
    checkpoint::state_texts::one_state();
    checkpoint::state_texts::names_are_plain();
    checkpoint::state_texts::cuts_are_read();
    bound_plan::one_program();
}
