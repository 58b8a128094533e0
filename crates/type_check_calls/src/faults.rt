//! Refusals as faults.
ghost use Rattle.std.specs.Prelude.{◌≡◌};
ghost use Rattle.source_answers.specs.declared.fault.SourceFault.TheVariants.{Refused};

use gang_model::{RefusalNumber, SourceRefusal};
use gang_types::Place;
use source_answers::SourceFault;

/// A refusal at a place.
pub(crate) fn refused(number: RefusalNumber, place: Place) -> SourceFault
    ensures { result ≡ Refused (record { number = number; place = place }) }
{
    SourceFault::Refused(SourceRefusal { number, place })
}
