//! Functions' results and parameters.
ghost use Rattle.std.specs.Prelude.{◌≡◌, ◌||◌};
ghost use Rattle.gang_model.specs.Source.Judged.{least_fault};
ghost use Rattle.gang_model.specs.Types.Signatures as model;
ghost use Rattle.gang_model.specs.Types.TypeFaults as faults;
ghost use Rattle.source_tree.specs.Tree.{function_view, param_view};

use gang_model::{RefusalNumber, SourceRefusal, Spec};
use gang_types::{IntType, Place, Rate};
use source_answers::{fault_if, least};
use source_tree::{Function, Param};
use type_check_values::{declared_rate, is_varying};

/// Whether what is declared with a spec is varying.
fn is_varying_spec(spec: Spec) -> bool
    ensures { result ≡ faults.is_varying_spec spec }
{
    is_varying(declared_rate(spec.rate))
}

/// S8 at the name of a `void` variable.
pub fn variable_fault(place: Place, spec: Spec) -> Option<SourceRefusal>
    ensures { result ≡ least_fault (faults.variable_faults place spec) }
{
    fault_if(spec.value_type.is_none(), RefusalNumber::S8, place)
}

/// S7 at the name of what is varying where it has to be uniform.
pub fn varying_fault(place: Place, spec: Spec, has_to_be_uniform: bool) -> Option<SourceRefusal>
    ensures { result ≡ least_fault (faults.array_faults place spec has_to_be_uniform) }
{
    let is_refused = has_to_be_uniform && is_varying_spec(spec);
    fault_if(is_refused, RefusalNumber::S7, place)
}

/// Whether a parameter has to be uniform: an array, and any parameter of an exported function.
fn has_to_be_uniform(is_exported: bool, param: &Param) -> bool
    ensures { result ≡ (param.now.is_array || is_exported) }
{
    param.is_array || is_exported
}

/// S7 at a parameter that is varying and has to be uniform, S8 at one that is `void`.
fn param_fault(is_exported: bool, param: &Param) -> Option<SourceRefusal>
    ensures { result ≡ least_fault (faults.param_faults is_exported (param_view param.now)) }
{
    let has_to_be_uniform = has_to_be_uniform(is_exported, param);
    least(
        varying_fault(param.place, param.spec, has_to_be_uniform),
        variable_fault(param.place, param.spec),
    )
}

/// S7 at the name of an exported function with a varying result.
fn result_rate_fault(function: &Function) -> Option<SourceRefusal>
    ensures { result ≡ least_fault (faults.result_rate_faults (function_view function.now)) }
{
    let spec = function.spec;
    let is_refused = spec.is_exported && spec.value_type.is_some() && is_varying_spec(spec);
    fault_if(is_refused, RefusalNumber::S7, function.place)
}

/// The first fault of a function's result and parameters.
pub(crate) fn signature_fault(function: &Function) -> Option<SourceRefusal>
    ensures { result ≡ least_fault (faults.signature_faults (function_view function.now)) }
{
    let mut first = result_rate_fault(function);
    for param in &function.params {
        first = least(first, param_fault(function.spec.is_exported, param));
    }
    first
}

/// A result's type and rate; none for `void`.
pub(crate) fn result_of(spec: Spec) -> Option<(IntType, Rate)>
    ensures { result ≡ model.result_of spec }
{
    let value_type = spec.value_type?;
    Some((value_type, declared_rate(spec.rate)))
}
