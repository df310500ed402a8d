//! Laws of the definitions of this crate: that any two answers to the same words over the same files agree, that there
//! is one for all words and files, and what the ending of a call tells of them.
mod laws;

pub use laws::{
    answers_agree, answers_exist, bound_programs_start_in_range, calls_are_complete,
    calls_report_their_answers, calls_show_their_answers, chosen_programs_start_in_range,
    others_write_nothing, restarts_are_whole, runs_answer_on_cells, unread_files_are_named,
    usage_is_of_words,
};
