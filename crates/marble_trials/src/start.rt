//! The marks and the pictures as they were made before they were made faster, to compare with: names and acts are looked up
//! one after another, `text_picture` goes over all marks for each strip, `svg_picture` over all for each row, and each
//! caption is a text of its own.

mod answered;
mod caption;
mod deed;
mod happening;
mod ledger;
mod line;
mod loss;
mod marking;
mod numbers;
mod reply;
mod said;
mod sheet;
mod steps;
mod svg;
mod symbol;
mod text;
mod ways;

pub(crate) use marking::marks;
pub(crate) use said::Said;
pub(crate) use svg::svg_picture;
pub(crate) use text::text_picture;
