//! Variables that are assigned, or that get a result.
ghost use Rattle.std.specs.Prelude.{◌≡◌};
ghost use Rattle.gang_model.specs.Running.State.{same_id};
ghost use Rattle.typed_tree.specs.Views.{result_view, target_view};
ghost use Rattle.variable_writes.specs.Writes as spec;

use gang_types::VarId;
use typed_tree::{ResultFor, Target};

/// Whether two variables are one.
pub fn is_same(one: VarId, other: VarId) -> bool
    ensures { result ≡ same_id one other }
{
    match (one, other) {
        (VarId::File(a), VarId::File(b)) => a == b,
        (VarId::Local(a), VarId::Local(b)) => a == b,
        (VarId::File(_), VarId::Local(_)) | (VarId::Local(_), VarId::File(_)) => false,
    }
}

/// Whether a result is given to this variable.
pub(crate) fn given_to(id: VarId, result_for: ResultFor) -> bool
    ensures { result ≡ spec.given_to id (result_view result_for) }
{
    match result_for {
        ResultFor::Declares(variable) | ResultFor::Assigns(variable) => is_same(variable.id, id),
        ResultFor::Nothing | ResultFor::Returns => false,
    }
}

/// Whether this variable is what is assigned, or the array of the element that is.
pub(crate) fn is_target(id: VarId, target: &Target) -> bool
    ensures { result ≡ spec.is_target id (target_view target.now) }
{
    match target {
        Target::Scalar(variable) => is_same(variable.id, id),
        Target::Element { array, .. } => is_same(*array, id),
    }
}
