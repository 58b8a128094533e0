//! Why a source has no program.
ghost use Rattle.std.specs.Prelude.{◌≡◌, IfOk};
ghost use Rattle.source_answers.specs.declared.fault.SourceFault.TheVariants.{Memory};

use gang_model::SourceRefusal;
use std::alloc::{AllocError, AllocFailed, Global};
use thiserror::Error;

/// Out of memory, or a refusal with its place.
#[derive(Clone, Copy, Debug, PartialEq, Eq, Drop, Error)]
pub enum SourceFault {
    #[error("out of memory")]
    Memory,
    #[error("{line}:{col}: {number:?}", line = .0.place.line, col = .0.place.col, number = .0.number)]
    Refused(SourceRefusal),
}

impl From<AllocError> for SourceFault {
    ghost from_gives = { λ _ fault. fault ≡ Memory };

    fn from(_error: AllocError) -> SourceFault {
        SourceFault::Memory
    }
}

impl<T: Drop> From<AllocFailed<T>> for SourceFault {
    ghost from_gives = { λ _ fault. fault ≡ Memory };

    fn from(_error: AllocFailed<T>) -> SourceFault {
        SourceFault::Memory
    }
}

/// A value in a box.
///
/// # Errors
///
/// Out of memory.
pub fn boxed<T: Drop>(alloc: Global, value: T) -> Result<Box<T>, AllocError>
    ensures value { IfOk result (λ place. place.value ≡ value) }
{
    Ok(Box::new(alloc, value)?)
}

/// Two values in boxes.
///
/// # Errors
///
/// Out of memory.
pub fn both_boxed<A: Drop, B: Drop>(
    alloc: Global,
    first: A,
    second: B,
) -> Result<(Box<A>, Box<B>), AllocError>
    ensures first { IfOk result (λ places. places.0.value ≡ first) }
    ensures second { IfOk result (λ places. places.1.value ≡ second) }
{
    let first = boxed(alloc, first)?;
    boxed(alloc, second).map(|second| (first, second))
}
