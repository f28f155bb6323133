//! Tests of shared flows on one thread, lanes and states that cross crates, with answers known from outside: mostly a table, and
//! one function for all its rows.
#![tactic(auto)]

#[cfg(test)]
mod body_rows;
#[cfg(test)]
mod core_limits;
#[cfg(test)]
mod core_rows;
#[cfg(test)]
mod given_back;
#[cfg(test)]
mod lane_blocks;
#[cfg(test)]
mod lane_body;
#[cfg(test)]
mod lane_rows;
#[cfg(test)]
mod lane_threads;
#[cfg(test)]
mod making_rows;
#[cfg(test)]
mod state_rows;
#[cfg(test)]
mod tools;
