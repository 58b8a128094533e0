//! Why an input is refused.
ghost use Rattle.std.specs.Prelude.{◌≡◌};
ghost use Rattle.debug_inputs.specs.declared.fault.InputFault.TheVariants.{Memory};

use std::alloc::{AllocError, AllocFailed};
use thiserror::Error;

/// Why an input is refused. Lines count from 1.
#[derive(Debug, PartialEq, Eq, Error)]
pub enum InputFault {
    /// A line has a wrong form, or names what has a row or may have none.
    #[error("line {0}: the line is no row")]
    BadLine(u32),
    /// A parameter of the entry has no row.
    #[error("a parameter has no row")]
    Missing(Vec<u8>),
    /// A value is none of the variable's type.
    #[error("line {0}: a value is out of range")]
    Range(u32),
    /// A line has more values than there is room for, or the whole input more bytes.
    #[error("the input is too large")]
    TooLarge(Option<u32>),
    #[error("out of memory")]
    Memory,
}

impl Drop for InputFault {
    fn drop(self) {
        match self {
            InputFault::BadLine(_)
            | InputFault::Missing(_)
            | InputFault::Range(_)
            | InputFault::TooLarge(_)
            | InputFault::Memory => {}
        }
    }
}

impl From<AllocError> for InputFault {
    ghost from_gives = { λ _ fault. fault ≡ Memory };

    fn from(_error: AllocError) -> InputFault {
        InputFault::Memory
    }
}

impl<T: Drop> From<AllocFailed<T>> for InputFault {
    ghost from_gives = { λ _ fault. fault ≡ Memory };

    fn from(_error: AllocFailed<T>) -> InputFault {
        InputFault::Memory
    }
}
