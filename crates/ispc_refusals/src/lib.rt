//! Why a run is refused, and how it is told.
#![tactic(auto)]

mod refusal;

pub use refusal::{Refusal, write_refusal};
