//! The least of some faults: that with the first place, at one place that with the least number.
ghost use Rattle.std.specs.Prelude.{◌≡◌};
ghost use Rattle.gang_model.specs.Source.Judged as judged;
ghost use Rattle.gang_model.specs.Source.Judged.{least_fault, merged, or_later};

use gang_model::{RefusalNumber, SourceRefusal};
use gang_types::Place;

/// What faults are ordered by: the line, the column and the number.
fn order(fault: SourceRefusal) -> (u32, u32, u8)
    ensures { result ≡ (fault.place.line, fault.place.col, judged.rank fault.number) }
{
    (fault.place.line, fault.place.col, fault.number as u8 + 1)
}

fn is_less(left: SourceRefusal, right: SourceRefusal) -> bool
    ensures { result ≡ judged.is_less left right }
{
    order(left) < order(right)
}

/// The first of two faults, or the second where it comes before.
pub(crate) fn lesser(fault: SourceRefusal, later: SourceRefusal) -> SourceRefusal
    ensures { result ≡ judged.lesser fault later }
{
    if is_less(later, fault) { later } else { fault }
}

/// The least of the least faults of two parts.
pub fn least(left: Option<SourceRefusal>, right: Option<SourceRefusal>) -> Option<SourceRefusal>
    ensures { result ≡ merged left right }
{
    match (left, right) {
        (None, later) => later,
        (Some(fault), None) => Some(fault),
        (Some(fault), Some(later)) => Some(lesser(fault, later)),
    }
}

/// The least fault inside a part, or the part's own where there is none inside.
pub fn least_inside(
    inside: Option<SourceRefusal>,
    own: Option<SourceRefusal>,
) -> Option<SourceRefusal>
    ensures { result ≡ or_later inside own }
{
    inside.or(own)
}

/// A fault at a place, if there is one.
pub fn fault_if(holds: bool, number: RefusalNumber, place: Place) -> Option<SourceRefusal>
    ensures { result ≡ least_fault (judged.fault_if holds number place) }
{
    if holds {
        Some(SourceRefusal { number, place })
    } else {
        None
    }
}
