//! Which words of a call of `op2` are wrong, where the words are refused.
//!
//! `put_wrong` tells one or two words behind one another that can be left out so that a call is left;
//! `specs/Wrong.antt` says which.
mod leaving;
mod telling;

pub use telling::put_wrong;
