//! Variables as JSON.
ghost use Rattle.std.specs.Prelude.{◌≡◌, ◌++◌, IfOk, codes, string_bytes};
ghost use Rattle.serde_json.specs.Data.{array};
ghost use Rattle.serde_json.specs.View.{view};
ghost use Rattle.adapter_messages.specs.Replies.{array_of, attributes, hint, kind_text, marked_if, only, variable, variable_of};
ghost use Rattle.adapter_messages.specs.Replies as spec;
ghost use Rattle.adapter_messages.specs.Arguments.{mark};
ghost use Rattle.adapter_requests.specs.declared.reply.VariableKind.TheVariants as kind;

use crate::arguments::MARK;
use adapter_requests::{Variable, VariableKind};
use serde_json::{Value, json, push};
use std::alloc::{AllocError, Global};

/// What is told of variables.
pub(crate) fn variables(alloc: Global, found: &[Variable]) -> Result<Value, AllocError>
    ensures { IfOk result (λ v. view v ≡ only (codes "variables") (array_of variable found.now)) }
{
    let mut list = Vec::new(alloc);
    for variable in found {
        let shown = variable_value(alloc, variable)?;
        push(&mut list, shown)?;
    }
    json!(in alloc; {"variables": Value::Array(list)})
}

/// A variable.
fn variable_value(alloc: Global, variable: &Variable) -> Result<Value, AllocError>
    ensures { IfOk result (λ v. view v ≡ spec.variable variable.now) }
{
    match variable.kind {
        VariableKind::Plain => plain_value(alloc, variable),
        VariableKind::Waits => waiting_value(alloc, variable),
        VariableKind::Array(elements) => array_value(alloc, variable, elements),
        VariableKind::Range => range_value(alloc, variable),
        VariableKind::Lane { waits } => lane_value(alloc, variable, waits),
    }
}

/// How a variable of a kind is shown.
fn hint_value(alloc: Global, kind: VariableKind, variable: &Variable) -> Result<Value, AllocError>
    ensures { IfOk result (λ v. view v ≡ hint kind (attributes variable.now.is_constant variable.now.is_read_only)) }
{
    let attributes = attributes_value(alloc, variable.is_constant, variable.is_read_only)?;
    json!(in alloc; {"attributes": attributes, "kind": kind_text(kind)})
}

/// That what is shown can be set, or cannot: it is a constant, or is only looked at where it stands.
fn attributes_value(
    alloc: Global,
    is_constant: bool,
    is_read_only: bool,
) -> Result<Value, AllocError>
    ensures { IfOk result (λ v. view v ≡ array (attributes is_constant is_read_only)) }
{
    if is_constant {
        json!(in alloc; ["constant", "readOnly"])
    } else if is_read_only {
        json!(in alloc; ["readOnly"])
    } else {
        json!(in alloc; [])
    }
}

/// The protocol's word for what is shown: a range of elements stands for no value of the program.
fn kind_text(kind: VariableKind) -> &'static str
    ensures { result.now ≡ kind_text kind }
{
    match kind {
        VariableKind::Range => "virtual",
        VariableKind::Plain
        | VariableKind::Waits
        | VariableKind::Array(_)
        | VariableKind::Lane { .. } => "data",
    }
}

/// A scalar, a lane that is active or an element.
fn plain_value(alloc: Global, variable: &Variable) -> Result<Value, AllocError>
    ensures { IfOk result (λ v. view v ≡ variable_of kind.Plain (attributes variable.now.is_constant variable.now.is_read_only) (string_bytes variable.now.name) (string_bytes variable.now.value) (string_bytes variable.now.type_name) variable.now.reference) }
{
    let hint = hint_value(alloc, VariableKind::Plain, variable)?;
    let name = variable.name.as_str();
    let reference = variable.reference;
    json!(in alloc; {
        "evaluateName": name,
        "name": name,
        "presentationHint": hint,
        "type": variable.type_name.as_str(),
        "value": variable.value.as_str(),
        "variablesReference": reference
    })
}

/// A lane that is not active.
fn waiting_value(alloc: Global, variable: &Variable) -> Result<Value, AllocError>
    ensures { IfOk result (λ v. view v ≡ variable_of kind.Waits (attributes variable.now.is_constant variable.now.is_read_only) (string_bytes variable.now.name) (string_bytes variable.now.value) (string_bytes variable.now.type_name) variable.now.reference) }
{
    let hint = hint_value(alloc, VariableKind::Waits, variable)?;
    let name = marked(alloc, variable.name.as_str())?;
    let value = marked(alloc, variable.value.as_str())?;
    json!(in alloc; {
        "evaluateName": variable.name.as_str(),
        "name": name.as_str(),
        "presentationHint": hint,
        "type": variable.type_name.as_str(),
        "value": value.as_str(),
        "variablesReference": variable.reference
    })
}

/// A text with the mark of a lane that is not active.
fn marked(alloc: Global, text: &str) -> Result<String, AllocError>
    ensures { IfOk result (λ marked. string_bytes marked ≡ text.now ++ mark) }
{
    let mut marked = String::from_str(alloc, text)?;
    marked.push_str(MARK)?;
    Ok(marked)
}

/// An array of so many elements.
fn array_value(alloc: Global, variable: &Variable, elements: usize) -> Result<Value, AllocError>
    ensures { IfOk result (λ v. view v ≡ variable_of (kind.Array elements) (attributes variable.now.is_constant variable.now.is_read_only) (string_bytes variable.now.name) (string_bytes variable.now.value) (string_bytes variable.now.type_name) variable.now.reference) }
{
    let hint = hint_value(alloc, VariableKind::Array(elements), variable)?;
    let name = variable.name.as_str();
    json!(in alloc; {
        "evaluateName": name,
        "indexedVariables": elements,
        "name": name,
        "presentationHint": hint,
        "type": variable.type_name.as_str(),
        "value": variable.value.as_str(),
        "variablesReference": variable.reference
    })
}

/// A range of elements.
fn range_value(alloc: Global, variable: &Variable) -> Result<Value, AllocError>
    ensures { IfOk result (λ v. view v ≡ variable_of kind.Range (attributes variable.now.is_constant variable.now.is_read_only) (string_bytes variable.now.name) (string_bytes variable.now.value) (string_bytes variable.now.type_name) variable.now.reference) }
{
    let hint = hint_value(alloc, VariableKind::Range, variable)?;
    json!(in alloc; {
        "name": variable.name.as_str(),
        "presentationHint": hint,
        "type": variable.type_name.as_str(),
        "value": variable.value.as_str(),
        "variablesReference": variable.reference
    })
}

/// A lane of the value of an expression.
fn lane_value(alloc: Global, variable: &Variable, waits: bool) -> Result<Value, AllocError>
    ensures { IfOk result (λ v. view v ≡ variable_of (kind.Lane waits) (attributes variable.now.is_constant variable.now.is_read_only) (string_bytes variable.now.name) (string_bytes variable.now.value) (string_bytes variable.now.type_name) variable.now.reference) }
{
    let hint = hint_value(alloc, VariableKind::Lane { waits }, variable)?;
    let name = marked_if(alloc, waits, variable.name.as_str())?;
    let value = marked_if(alloc, waits, variable.value.as_str())?;
    json!(in alloc; {
        "name": name.as_str(),
        "presentationHint": hint,
        "type": variable.type_name.as_str(),
        "value": value.as_str(),
        "variablesReference": variable.reference
    })
}

/// A text, with the mark of a lane that is not active where it waits.
fn marked_if(alloc: Global, waits: bool, text: &str) -> Result<String, AllocError>
    ensures { IfOk result (λ shown. string_bytes shown ≡ marked_if waits text.now) }
{
    if waits {
        marked(alloc, text)
    } else {
        String::from_str(alloc, text)
    }
}
