//! A machine whose whole run can be taken back.
#![tactic(auto)]

mod copies;
mod copies_over;
mod expressions;
mod framed;
mod kept_copies;
mod lanes;
mod machine;
mod notes;
mod pokes;
mod redoing;
mod whole_run;

pub use copies::{CopiedMoment, Copies, CopyPlan};
pub use copies_over::CopiesOver;
pub use kept_copies::{KeptCopies, TellsCopies};
pub use notes::{NotedPoke, Notes};
pub use whole_run::{WHOLE_RUN, WholeRun};
