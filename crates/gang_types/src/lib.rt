//! Integer types, the words that hold their values, and the operations on words.
#![tactic(auto)]

mod faults;
mod masks;
mod operations;
mod operators;
mod places;
mod types;
mod values;

pub use faults::FaultName;
pub use masks::Mask;
pub use operations::{
    add, and, binary, div, equal, less, less_equal, mul, not_equal, or, rem, shl, shr, sub, unary,
    xor,
};
pub use operators::{BinaryOp, UnaryOp};
pub use places::{FuncId, Place, Spot, VarId};
pub use types::{IntType, Rate};
pub use values::{bias, convert, half, is_bool, is_signed, low_bits, value, width, wrap};
