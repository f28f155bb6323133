//! Tests of scripts, with answers known from outside, on either engine: mostly a table, and one function for all its rows.
#![tactic(auto)]

#[cfg(test)]
mod script_rows;
#[cfg(test)]
mod tools;
