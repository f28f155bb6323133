//! The parties of a lane and of a state flow, each with all that its calls need.

mod collecting;
mod reading;
mod seating;
mod sequencing;

pub use collecting::Collecting;
pub use reading::Reading;
pub use seating::Seating;
pub use sequencing::Sequencing;
