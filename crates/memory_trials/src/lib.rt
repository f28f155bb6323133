//! Tests that memory comes back: from what is let go, and from waits that end at once. Nothing stands on this crate.
#![tactic(auto)]

#[cfg(test)]
mod given_back;
#[cfg(test)]
mod pages;
#[cfg(test)]
mod parkers;
