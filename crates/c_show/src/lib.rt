//! The kinds of the tokens that a tree prints, made from the tree.
#![tactic(auto)]

mod put_calls;
mod put_expressions;
mod put_hosts;
mod put_statements;
mod put_tokens;
mod put_tops;
mod showing;

pub use showing::show;
