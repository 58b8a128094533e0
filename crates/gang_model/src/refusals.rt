//! Why a source is refused.

use gang_types::Place;

/// The numbers of the source refusals.
#[derive(Clone, Copy, Debug, PartialEq, Eq, Drop)]
pub enum RefusalNumber {
    S1,
    S2,
    S3,
    S4,
    S5,
    S6,
    S7,
    S8,
    S9,
    S10,
    S11,
    S12,
    S13,
}

/// A refusal and where it stands.
#[derive(Clone, Copy, Debug, PartialEq, Eq, Drop)]
pub struct SourceRefusal {
    pub number: RefusalNumber,
    pub place: Place,
}
