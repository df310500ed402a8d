//! The plan of a bound program, as the options of a call ask for it: the mesh on its ranks, and the blocks and colours
//! of its loops.
//!
//! `planned_on` reads the files that the options name, and judges in order new numbers, owners and the plan, up to the
//! first refusal.
mod colourings;
mod planned;

pub use planned::planned_on;
