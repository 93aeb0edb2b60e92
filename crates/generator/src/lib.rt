//! What the generator of schedules lets happen next, by the words of a seed: deliveries, and transfers between ten
//! accounts, each of which reads both and then commits.
#![tactic(auto)]

mod accounts;
mod course;
mod doings;
mod transfers;

pub use accounts::Reading;
pub use course::Course;
pub use doings::Doing;
pub use transfers::Transfer;
