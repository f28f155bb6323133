//! What a run is made of that borrows what it receives from.

pub mod both;
pub mod collecting;
pub mod combining;
pub mod ended;
pub mod reading;
pub mod receiving;
pub mod watching;
