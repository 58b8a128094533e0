//! Where lanes that part meet again.
#![tactic(auto)]

mod meetings;
mod rows;
mod waiting;

pub use meetings::Meetings;
pub use rows::Parting;
