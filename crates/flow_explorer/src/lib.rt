//! Every order of the calls of three parties on a shared flow, as a test, with what each subscription has to receive told by the
//! receipts of the emissions alone.
#![tactic(auto)]

#[cfg(test)]
mod calls;
#[cfg(test)]
mod on_core;
#[cfg(test)]
mod on_flow;
#[cfg(test)]
mod on_lane;
#[cfg(test)]
mod schedules;
#[cfg(test)]
mod story;
