//! What `op2` answers to its words, over the files that are told, as definitions: the chain of judgements, what each
//! refusal of a part is as one of the program, and how a call ends. Their laws stand in `laws`. `answer_writing`
//! writes an answer.
#![tactic(auto)]

pub mod answer_writing;
pub mod laws;
