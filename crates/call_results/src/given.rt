//! What a call's result is given to, and of which type it is.
ghost use Rattle.std.specs.Prelude.{◌≡◌};
ghost use Rattle.typed_tree.specs.Views.{program_view};
ghost use Rattle.call_results.specs.Calls as spec;

use crate::calls::{GivingCall, giving_at};
use gang_types::{IntType, Spot, VarId};
use typed_tree::Program;

/// The variable that gets a call's result, and the type of that.
#[derive(Clone, Copy, Debug, PartialEq, Eq)]
pub struct GivenResult {
    pub variable: VarId,
    pub value_type: IntType,
}

/// What the call at a step of a program gives, where a variable gets it.
pub fn given_at(program: &Program, spot: Spot) -> Option<GivenResult>
    ensures { result ≡ spec.given_at (program_view program.now) spot }
{
    match giving_at(program, spot) {
        Some(call) => given_by(program, call),
        None => None,
    }
}

/// What a call gives to its variable.
fn given_by(program: &Program, call: GivingCall) -> Option<GivenResult>
    ensures { result ≡ spec.given_by (program_view program.now) (spec.call_view call) }
{
    match program.functions.get(call.function) {
        Some(function) => Some(GivenResult {
            variable: call.variable,
            value_type: function.result_type,
        }),
        None => None,
    }
}
