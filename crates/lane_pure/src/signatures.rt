//! Functions by themselves: their parameters and results, as they are written, and their bodies.
ghost use Rattle.std.specs.Prelude.{◌≡◌, map, [], ◌∷◌};
ghost use Rattle.gang_model.specs.Running.LanePure as pure;
ghost use Rattle.gang_model.specs.Types.Conversions.{is_varying};
ghost use Rattle.gang_model.specs.Types.Signatures.{declared_rate};
ghost use Rattle.source_tree.specs.Tree as written;
ghost use Rattle.typed_tree.specs.Views as typed;

use crate::expressions::is_varying;
use crate::statements::are_pure_statements;
use gang_model::Spec;
use gang_types::Rate;
use source_tree::Param;

/// Whether a declared rate is varying, as it is where none is written.
fn is_declared_varying(rate: Option<Rate>) -> bool
    ensures { result ≡ is_varying (declared_rate rate) }
{
    match rate {
        Some(rate) => is_varying(rate),
        None => true,
    }
}

/// Whether a parameter is an array or varying.
fn is_pure_param(param: &Param) -> bool
    ensures { result ≡ pure.are_pure_params (map written.param_view (param.now ∷ [])) }
{
    param.is_array || is_declared_varying(param.spec.rate)
}

/// Whether parameters are arrays or varying.
fn are_pure_params(params: &[Param]) -> bool
    ensures { result ≡ pure.are_pure_params (map written.param_view params.now) }
{
    for param in params {
        if !is_pure_param(param) {
            return false;
        }
    }
    true
}

/// Whether a result is void or varying.
fn is_pure_return(spec: &Spec) -> bool
    ensures { result ≡ pure.is_pure_return spec.now.value_type spec.now.rate }
{
    spec.value_type.is_none() || is_declared_varying(spec.rate)
}

/// Whether a function by itself is lane-pure, whatever it calls.
pub(crate) fn is_pure_function(
    source: &source_tree::Function,
    function: &typed_tree::Function,
) -> bool
    ensures { result ≡ pure.is_pure_function (written.function_view source.now) (typed.function_view function.now) }
{
    are_pure_params(&source.params)
        && is_pure_return(&source.spec)
        && are_pure_statements(&function.body)
}
