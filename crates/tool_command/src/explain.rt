//! The job `explain` of `op2-tools`: what `op2` answers to its words, explained.
//!
//! `explained` gives the answer: the text of an error by its kind and number; or, for the words of a call of `op2`, its
//! status and its line with what they mean (`explanations`). `specs/ExplainAnswers.antt` says what it is. Each file
//! that the words name is read once, and `op2` does its work once, over what was read.
mod answering;
mod held;
mod loops;
mod named;
mod states;
mod words;

pub use answering::explained;
