//! Tests of cold flows that cross crates, with answers known from outside: mostly a table, and one function for all its rows.
#![tactic(auto)]

#[cfg(test)]
mod asking_rows;
#[cfg(test)]
mod buffer_rows;
#[cfg(test)]
mod cancel_rows;
#[cfg(test)]
mod cold_rows;
#[cfg(test)]
mod further;
#[cfg(test)]
mod further_rows;
#[cfg(test)]
mod list_rows;
#[cfg(test)]
mod memory_rows;
#[cfg(test)]
mod merge_rows;
#[cfg(test)]
mod operators;
#[cfg(test)]
mod refused_rows;
#[cfg(test)]
mod side_rows;
#[cfg(test)]
mod sources;
#[cfg(test)]
mod timed_rows;
#[cfg(test)]
mod tools;
#[cfg(test)]
mod unfold_rows;
