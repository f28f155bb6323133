//! Draws a script: it is run as `flow_runner` runs it, and the marks of its lines and answers are written as a picture.
#![tactic(auto)]

mod drawing;

pub use drawing::{Form, draw_script};
