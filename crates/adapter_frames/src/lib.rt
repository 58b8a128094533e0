//! The frames of the Debug Adapter Protocol: messages behind headers that say how long they are.
#![tactic(auto)]

mod heads;
mod reading;
mod writing;

pub use heads::HeadFault;
pub use reading::{FrameFault, FrameReader};
pub use writing::write_frame;
