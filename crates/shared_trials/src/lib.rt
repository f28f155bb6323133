//! Tests of shared flows between threads and of sharing that cross crates, with answers known from outside: mostly a table, and one
//! function for all its rows.
#![tactic(auto)]

#[cfg(test)]
mod block_rows;
#[cfg(test)]
mod block_threads;
#[cfg(test)]
mod exchange_rows;
#[cfg(test)]
mod ledger;
#[cfg(test)]
mod memory_rows;
#[cfg(test)]
mod scarce;
#[cfg(test)]
mod shared_memory;
#[cfg(test)]
mod shared_reads;
#[cfg(test)]
mod shared_rows;
#[cfg(test)]
mod shared_stage;
#[cfg(test)]
mod shared_threads;
#[cfg(test)]
mod shared_wakes;
#[cfg(test)]
mod sharing_rows;
#[cfg(test)]
mod state_sharing_rows;
#[cfg(test)]
mod strategy_rows;
#[cfg(test)]
mod ticks;
#[cfg(test)]
mod tools;
#[cfg(test)]
mod waiting_looks;
#[cfg(test)]
mod waiting_rows;
#[cfg(test)]
mod waiting_scenes;
#[cfg(test)]
mod when;
