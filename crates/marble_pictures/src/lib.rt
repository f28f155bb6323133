//! Pictures of a script: its marks as characters for a terminal, and as SVG. Only marks are written.
#![tactic(auto)]

mod caption;
mod line;
mod sheet;
mod steps;
mod svg;
mod symbol;
mod text;
mod ways;
mod widths;

pub use svg::svg_picture;
pub use text::text_picture;
