//! Hillgauze for C and Rust: a static library of thin exports over `SharedState`, the lane and the state flow.
//!
//! `native/include/hillgauze.h` says what each call does. A handle of C ([`Handle`](handle)) is null or owns one object; an
//! export makes the library's own call on what it finds in it, and answers a [`Reply`](reply). Its contract says of
//! the object before and after what the library's call says.
#![tactic(auto)]

mod config;
mod exports;
mod handle;
mod object;
mod parties;
mod receiving;
mod reply;
