//! Parts of a tree that are judged each by itself.
ghost use Rattle.std.specs.Prelude.{◌≡◌};
ghost use Rattle.source_answers.specs.Answers.{both_answers, refusal_of};

use crate::fault::SourceFault;
use crate::least_faults::lesser;
use gang_model::SourceRefusal;

/// What both parts stand for.
///
/// # Errors
///
/// The lesser fault of the two parts. Out of memory, if one of them was.
pub fn both<A: Drop, B: Drop>(
    left: Result<A, SourceFault>,
    right: Result<B, SourceFault>,
) -> Result<(A, B), SourceFault>
    ensures { result ≡ both_answers left right }
{
    match (left, right) {
        (Ok(left), Ok(right)) => Ok((left, right)),
        (Ok(_), Err(fault)) | (Err(fault), Ok(_)) => Err(fault),
        (Err(SourceFault::Refused(first)), Err(SourceFault::Refused(second))) => {
            Err(SourceFault::Refused(lesser(first, second)))
        }
        (Err(_), Err(_)) => Err(SourceFault::Memory),
    }
}

/// Goes on where there is no fault.
///
/// # Errors
///
/// The fault.
pub fn refuse(fault: Option<SourceRefusal>) -> Result<(), SourceFault>
    ensures { result ≡ refusal_of fault }
{
    match fault {
        None => Ok(()),
        Some(fault) => Err(SourceFault::Refused(fault)),
    }
}
