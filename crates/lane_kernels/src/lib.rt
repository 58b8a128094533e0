//! Operations on the words of a gang's lanes, one word for each lane.
#![tactic(auto)]

mod arithmetic;
mod bits;
mod choices;
mod comparisons;
mod conversions;
mod divisions;
mod vectors;

pub use arithmetic::{abs, add, mul, negate, sub};
pub use bits::{and, complement, or, popcnt, shl, shr, xor};
pub use choices::{clamp, max, min, select};
pub use comparisons::{equal, greater, greater_equal, less, less_equal, not, not_equal};
pub use conversions::convert;
pub use divisions::{divide, remainder};
