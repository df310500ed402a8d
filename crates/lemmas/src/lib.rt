//! Lemmas on lists, natural numbers and truth values, and the numbers below a bound that pass a test: what proofs of other crates share.
#![tactic(auto)]

mod laws;

pub use laws::numbers_are_listed;
