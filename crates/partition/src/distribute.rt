//! A mesh on several ranks, as the words of a command ask for it: owners by a rule, by the values of a dat, by growth
//! over a map or from a text; new numbers; halos; and the local mesh of each rank.
//!
//! Names are those of the mesh's dats and maps, and mean the first of the name. Each judgement is a relation in
//! `specs/Judgements.antt`, and laws say that it comes to one outcome.
mod distribution;
mod laws;
mod numbers;
mod owners;
mod types;

pub use crate::part_text::PartRefusal;
pub use distribution::distribute;
pub use laws::{one_distribution, one_numbers, one_owners};
pub use numbers::numbers_by;
pub use owners::owners_by;
pub use types::{Distribution, NumbersRefusal, OwnersRefusal, Parts};
