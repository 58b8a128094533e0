//! Breakpoints and watches with conditions and counts, over a session of the debugger.
#![tactic(auto)]

mod asking;
mod going;
mod judging;
mod reasons;
mod sights;
mod table;
mod walking;
mod watches;
mod watching;
mod writes;

pub use asking::ask_breakpoints;
pub use going::{Direction, MoveEnd, Moved, continue_on};
pub use judging::{HoldingLanes, Verdict, judge_condition};
pub use reasons::{CountedStop, Reason};
pub use sights::{FrameWatch, LONGEST_NAME, Sight, differ, sight, words_of};
pub use table::{ConditionRefusal, Conditions, LONGEST_CONDITION};
pub use walking::walk_on;
pub use watches::Watch;
pub use writes::{SetPart, SetPlace, WriteWatch};
