//! Answers for parts of a tree where out of memory is set apart, so that `?` stops at it alone.
ghost use Rattle.std.specs.Prelude.{◌≡◌};
ghost use Rattle.gang_model.specs.Source.Judged as judged;
ghost use Rattle.source_answers.specs.Apart.{apart, in_order, joined};

use crate::fault::SourceFault;
use crate::least_faults::least;
use gang_model::SourceRefusal;
use std::alloc::AllocError;

/// What a part of a tree stands for, or its least fault.
pub type Answer<A> = Result<A, SourceRefusal>;

/// The answer for a part.
///
/// # Errors
///
/// Out of memory.
pub fn set_apart<A: Drop>(part: Result<A, SourceFault>) -> Result<Answer<A>, AllocError>
    ensures { result ≡ apart part }
{
    match part {
        Ok(value) => Ok(Ok(value)),
        Err(SourceFault::Refused(fault)) => Ok(Err(fault)),
        Err(SourceFault::Memory) => Err(AllocError),
    }
}

/// The answer with out of memory among its errors.
///
/// # Errors
///
/// The refusal, or out of memory.
pub fn joined<A: Drop>(answer: Answer<A>) -> Result<A, SourceFault>
    ensures { result ≡ joined answer }
{
    match answer {
        Ok(value) => Ok(value),
        Err(fault) => Err(SourceFault::Refused(fault)),
    }
}

/// What both parts stand for, or the fault of the first of them that has one.
pub fn in_order<A: Drop, B: Drop>(first: Answer<A>, second: Answer<B>) -> Answer<(A, B)>
    ensures { result ≡ in_order first second }
{
    match (first, second) {
        (Ok(first), Ok(second)) => Ok((first, second)),
        (Err(fault), _) | (Ok(_), Err(fault)) => Err(fault),
    }
}

fn lesser(first: SourceRefusal, second: SourceRefusal) -> SourceRefusal
    ensures { result ≡ judged.lesser first second }
{
    match least(Some(first), Some(second)) {
        Some(fault) => fault,
        None => first,
    }
}

/// What both parts stand for, or the lesser fault of the two.
pub fn both_answers<A: Drop, B: Drop>(left: Answer<A>, right: Answer<B>) -> Answer<(A, B)>
    ensures { result ≡ judged.both_answers left right }
{
    match (left, right) {
        (Ok(left), Ok(right)) => Ok((left, right)),
        (Ok(_), Err(fault)) | (Err(fault), Ok(_)) => Err(fault),
        (Err(first), Err(second)) => Err(lesser(first, second)),
    }
}
