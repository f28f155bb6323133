//! Tests of flows and states of values of any type: what no clause says of them. Nothing stands on this crate.
#![tactic(auto)]

#[cfg(test)]
mod flow_rows;
#[cfg(test)]
mod flow_threads;
#[cfg(test)]
mod parcels;
#[cfg(test)]
mod refusals;
#[cfg(test)]
mod state_rows;
#[cfg(test)]
mod state_threads;
#[cfg(test)]
mod tools;
