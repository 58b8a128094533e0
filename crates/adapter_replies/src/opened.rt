//! What an editor can open of what an expression names.
ghost use Rattle.std.specs.Prelude.{◌≡◌, IfOk, find, map, option_map, string_bytes};
ghost use Rattle.gang_model.specs.Source.Names.{same_text};
ghost use Rattle.gang_model.specs.Debugger.Debugger.{Debugger, Setting};
ghost use Rattle.debug_commands.specs.Views.{target_view};
ghost use Rattle.adapter_replies.specs.Opened as spec;
ghost use Rattle.adapter_replies.specs.Opened.{first_place, opened_by, opened_by_name, parts_in_file, parts_in_frame, parts_named};
ghost use Rattle.adapter_replies.specs.References.{place_of};
ghost use Rattle.adapter_replies.specs.Variables.{variable_view};

use crate::forms::Form;
use crate::places::{Scope, depth_of};
use crate::scopes::{of_file, of_frame};
use adapter_requests::Variable;
use debug_answers::Answer;
use debug_commands::Target;
use debug_traits::FramedMachine;
use debug_words::is_same;
use std::alloc::{AllocError, Global};

/// The reference of the lanes or elements of what an answer shows in the top frame, 0 where it shows nothing that has some.
pub(crate) fn opened_by<M: FramedMachine>(
    alloc: Global,
    machine: &M,
    answer: &Answer<'_>,
) -> Result<u64, AllocError>
    ensures { (s : Setting) (d : Debugger) → M.stands machine.now s d → IfOk result (λ reference. place_of reference ≡ opened_by s d answer.now) }
{
    match answer {
        Answer::Shows { target, .. } => opened(alloc, machine, depth_of(machine), *target),
        _ => Ok(0),
    }
}

/// The reference of the lanes or elements of a target in the frame at a depth, 0 where it has none.
pub(crate) fn opened<M: FramedMachine>(
    alloc: Global,
    machine: &M,
    depth: usize,
    target: Target<'_>,
) -> Result<u64, AllocError>
    ensures { (s : Setting) (d : Debugger) → M.stands machine.now s d
        → IfOk result (λ reference. place_of reference ≡ spec.opened s d depth (target_view target.entry)) }
{
    match target.at {
        Some(_) => Ok(0),
        None => opened_by_name(alloc, machine, depth, target.name),
    }
}

/// The reference of the lanes or elements of the variable that a name finds in the frame at a depth, 0 where it has none.
fn opened_by_name<M: FramedMachine>(
    alloc: Global,
    machine: &M,
    depth: usize,
    name: &[u8],
) -> Result<u64, AllocError>
    ensures { (s : Setting) (d : Debugger) → M.stands machine.now s d
        → IfOk result (λ reference. place_of reference ≡ opened_by_name s d depth name.now) }
{
    let local = in_frame(alloc, machine, Scope::Locals, depth, name)?;
    let parameter = in_frame(alloc, machine, Scope::Arguments, depth, name)?;
    let of_file = in_file(alloc, machine, name)?;
    Ok(first_of(local, parameter, of_file))
}

/// The first reference that is there, else 0.
fn first_of(local: Option<u64>, parameter: Option<u64>, of_file: Option<u64>) -> u64
    ensures { place_of result ≡ first_place (option_map place_of local) (option_map place_of parameter) (option_map place_of of_file) }
{
    match (local, parameter, of_file) {
        (Some(reference), _, _) => reference,
        (None, Some(reference), _) => reference,
        (None, None, Some(reference)) => reference,
        (None, None, None) => 0,
    }
}

/// The reference of a name among the local variables or the parameters of the frame at a depth.
fn in_frame<M: FramedMachine>(
    alloc: Global,
    machine: &M,
    scope: Scope,
    depth: usize,
    name: &[u8],
) -> Result<Option<u64>, AllocError>
    ensures { (s : Setting) (d : Debugger) → M.stands machine.now s d
        → IfOk result (λ reference. option_map place_of reference ≡ parts_in_frame s d scope depth name.now) }
{
    let variables = of_frame(alloc, machine, Form::Value, scope, depth)?;
    Ok(reference_of_name(name, variables.as_slice()))
}

/// The reference of a name among the variables of the file.
fn in_file<M: FramedMachine>(
    alloc: Global,
    machine: &M,
    name: &[u8],
) -> Result<Option<u64>, AllocError>
    ensures { (s : Setting) (d : Debugger) → M.stands machine.now s d
        → IfOk result (λ reference. option_map place_of reference ≡ parts_in_file s d name.now) }
{
    let variables = of_file(alloc, machine, Form::Value, depth_of(machine))?;
    Ok(reference_of_name(name, variables.as_slice()))
}

/// The reference of the first of some variables that has a name.
fn reference_of_name(name: &[u8], variables: &[Variable]) -> Option<u64>
    ensures { option_map place_of result ≡ parts_named name.now (map variable_view variables.now) }
{
    match first_named(name, variables) {
        Some(variable) => Some(variable.reference),
        None => None,
    }
}

/// The first of some variables that has a name.
fn first_named<'a>(name: &[u8], variables: &'a [Variable]) -> Option<&'a Variable>
    ensures { option_map (λ variable. variable.now) result ≡ find (λ variable. same_text (string_bytes variable.name) name.now) variables.now }
{
    variables
        .iter()
        .find(|variable| is_same(variable.name.as_bytes(), name))
}
