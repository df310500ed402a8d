//! What only a test can show of a call of `op2`: that a run takes the steps of its schedule, that a gate is told of them,
//! and that the workers of a group, two ranks, or two batches of one rank run at once. No clause on bytes can tell any of
//! it; the rows of `op2_rows` show the rest.
#![tactic(auto)]

#[cfg(test)]
mod calls;
#[cfg(test)]
mod following;
#[cfg(test)]
mod gates;
#[cfg(test)]
mod orders;
#[cfg(test)]
mod schedule_text;
#[cfg(test)]
mod sure;
#[cfg(test)]
mod told;
