//! Tests over public calls of the libraries: what no clause says, and what the command line can't show.
#![tactic(auto)]

#[cfg(test)]
mod counters;
#[cfg(test)]
mod deepest;
#[cfg(test)]
mod faults;
#[cfg(test)]
mod files;
#[cfg(test)]
mod grids;
#[cfg(test)]
mod numbers;
#[cfg(test)]
mod owners;
#[cfg(test)]
mod places;
#[cfg(test)]
mod shown;
#[cfg(test)]
mod threads;
