//! The variables that an editor shows.
ghost use Rattle.std.specs.Prelude.{◌≡◌, ◌++◌, ◌<◌, IfOk, IfSome, Option, map, option_map, slice_get, string_bytes, take};
ghost use Rattle.gang_model.specs.Types.Tree as model;
ghost use Rattle.gang_model.specs.Debugger.Debugger as debugger;
ghost use Rattle.gang_model.specs.Debugger.Debugger.{Debugger, Setting, now};
ghost use Rattle.debug_traits.specs.Frames.{IsShownAt, ShowsNamedAt, ShowsNextAt};
ghost use Rattle.debug_traits.specs.Machines.{file_variables};
ghost use Rattle.adapter_replies.specs.References.{place_of};
ghost use Rattle.adapter_replies.specs.Variables.{ShowsOptionAt, is_found, of_scope, scope_list, told_each, told_now, told_one, told_option, told_whole, type_text, variable_view, whole_kind, whole_text, words_at};
ghost use Rattle.adapter_replies.specs.declared.places.Place.TheVariants as place;

use crate::forms::Form;
use crate::pages::named_of;
use crate::parts::{has_parts, parts_of, range_parts_of, type_name};
use crate::places::{Place, Scope, depth_of, place_now, reference_of};
use crate::texts::value_text_at;
use adapter_requests::{Page, Variable, VariableKind};
use debug_traits::{FramedMachine, NamedVariable, NextLocal, Shown};
use gang_types::Rate;
use std::alloc::{AllocError, Global};

/// The most variables of the file that are shown.
const MOST_SHOWN: usize = 1_000;

/// The variables that a reference stands for, if it stands for any now, as a page asks for them.
pub(crate) fn variables<M: FramedMachine>(
    alloc: Global,
    machine: &M,
    form: Form,
    reference: u64,
    page: Page,
) -> Result<Option<Vec<Variable>>, AllocError>
    ensures { (s : Setting) (d : Debugger) → M.stands machine.now s d
        → IfOk result (λ told. option_map (λ variables. map variable_view variables.items) told ≡ told_now form page s d reference) }
{
    let top = depth_of(machine);
    match place_now(top, reference) {
        Place::Variables { scope, depth } => {
            let told = of_frame(alloc, machine, form, scope, depth)?;
            Ok(Some(named_of(alloc, told, page)?))
        }
        Place::Parts {
            scope,
            depth,
            number,
        } => parts_in_frame(alloc, machine, form, scope, depth, number, page),
        Place::Range {
            scope,
            depth,
            number,
            range,
        } => {
            let named = variable_of(machine, scope, depth, number);
            range_parts_of(alloc, machine, form, depth, range, named, page)
        }
        Place::File => {
            let told = of_file(alloc, machine, form, top)?;
            Ok(Some(named_of(alloc, told, page)?))
        }
        Place::OfFile(number) => parts_in_file(alloc, machine, form, top, number, page),
        Place::FileRange { number, range } => {
            let named = file_variable(machine, top, number);
            range_parts_of(alloc, machine, form, top, range, named, page)
        }
        Place::Expression { .. } | Place::Nothing => Ok(None),
    }
}

/// The lanes or elements of the variable of a number of the frame at a depth, if there is one, as a page asks for them.
fn parts_in_frame<M: FramedMachine>(
    alloc: Global,
    machine: &M,
    form: Form,
    scope: Scope,
    depth: usize,
    number: usize,
    page: Page,
) -> Result<Option<Vec<Variable>>, AllocError>
    ensures { (s : Setting) (d : Debugger) → M.stands machine.now s d
        → IfOk result (λ told. option_map (λ variables. map variable_view variables.items) told
        ≡ told_option form page s d depth (place.Parts scope depth number) (slice_get (scope_list s d scope depth) number)) }
{
    let place = Place::Parts {
        scope,
        depth,
        number,
    };
    let named = variable_of(machine, scope, depth, number);
    parts_of(alloc, machine, form, depth, place, named, page)
}

/// The lanes or elements of the variable of the file of a number, if there is one, as the top frame shows it, whose depth this is.
fn parts_in_file<M: FramedMachine>(
    alloc: Global,
    machine: &M,
    form: Form,
    top: usize,
    number: usize,
    page: Page,
) -> Result<Option<Vec<Variable>>, AllocError>
    ensures { (s : Setting) (d : Debugger) → M.stands machine.now s d → top ≡ debugger.depth (now s d)
        → IfOk result (λ told. option_map (λ variables. map variable_view variables.items) told
        ≡ told_option form page s d top (place.OfFile number) (slice_get (file_variables s) number)) }
{
    let named = file_variable(machine, top, number);
    parts_of(
        alloc,
        machine,
        form,
        top,
        Place::OfFile(number),
        named,
        page,
    )
}

/// The variables of the frame at a depth that a name finds there.
pub(crate) fn of_frame<M: FramedMachine>(
    alloc: Global,
    machine: &M,
    form: Form,
    scope: Scope,
    depth: usize,
) -> Result<Vec<Variable>, AllocError>
    ensures { (s : Setting) (d : Debugger) → M.stands machine.now s d
        → IfOk result (λ told. map variable_view told.items ≡ told_each form s d depth (place.Parts scope depth) 0 (scope_list s d scope depth)) }
{
    let mut told = Vec::new(alloc);
    let mut from = 0;
    let mut number = 0;
    while let Some(next) = next_of(machine, scope, depth, from) {
        let reference = reference_of(Place::Parts {
            scope,
            depth,
            number,
        });
        let named = variable_here(next);
        push_found(alloc, machine, form, depth, named, reference, &mut told)?;
        from = place_after(next);
        number += 1;
    }
    Ok(told)
}

/// The first variable of the frame at a depth from a place on.
fn next_of<M: FramedMachine>(
    machine: &M,
    scope: Scope,
    depth: usize,
    from: usize,
) -> Option<NextLocal<'_>>
    ensures all { (s : Setting) (d : Debugger) → M.stands machine.now s d
        → of_scope scope (M.locals_at machine.now s d depth) (M.parameters_at machine.now s d depth) 0 ≡ scope_list s d scope depth }
    ensures next { (s : Setting) (d : Debugger) → M.stands machine.now s d
        → ShowsNextAt s d depth (of_scope scope (M.locals_at machine.now s d depth) (M.parameters_at machine.now s d depth)) from result }
    ensures further { IfSome result (λ next. from < next.next) }
{
    match scope {
        Scope::Locals => machine.next_local_at(depth, from),
        Scope::Arguments => machine.next_parameter_at(depth, from),
    }
}

/// The place from which on the variables after this one are.
pub(crate) fn place_after(local: NextLocal<'_>) -> usize
    ensures { result ≡ local.entry.next }
{
    local.next
}

/// The variable, without the place behind it.
pub(crate) fn variable_here(local: NextLocal<'_>) -> NamedVariable<'_>
    ensures { result ≡ local.entry.variable }
{
    local.variable
}

/// The variable of this number of the frame at a depth, if there is one.
fn variable_of<M: FramedMachine>(
    machine: &M,
    scope: Scope,
    depth: usize,
    number: usize,
) -> Option<NamedVariable<'_>>
    ensures { (s : Setting) (d : Debugger) → M.stands machine.now s d → ShowsOptionAt s d depth (slice_get (scope_list s d scope depth) number) result }
{
    let mut from = 0;
    for _ in 0..number {
        match next_of(machine, scope, depth, from) {
            None => return None,
            Some(next) => from = place_after(next),
        }
    }
    match next_of(machine, scope, depth, from) {
        None => None,
        Some(next) => Some(variable_here(next)),
    }
}

/// The variables of the file that a name finds in the top frame, whose depth this is, of the first so many.
pub(crate) fn of_file<M: FramedMachine>(
    alloc: Global,
    machine: &M,
    form: Form,
    top: usize,
) -> Result<Vec<Variable>, AllocError>
    ensures { (s : Setting) (d : Debugger) → M.stands machine.now s d → top ≡ debugger.depth (now s d)
        → IfOk result (λ told. map variable_view told.items ≡ told_each form s d top place.OfFile 0 (take 1000 (file_variables s))) }
{
    let mut told = Vec::new(alloc);
    for number in 0..MOST_SHOWN {
        match file_variable(machine, top, number) {
            None => return Ok(told),
            Some(named) => {
                let reference = reference_of(Place::OfFile(number));
                push_found(alloc, machine, form, top, named, reference, &mut told)?;
            }
        }
    }
    Ok(told)
}

/// The variable of the file of this number as the top frame shows it, whose depth this is.
fn file_variable<M: FramedMachine>(
    machine: &M,
    top: usize,
    number: usize,
) -> Option<NamedVariable<'_>>
    ensures { (s : Setting) (d : Debugger) → M.stands machine.now s d → top ≡ debugger.depth (now s d)
        → ShowsOptionAt s d top (slice_get (file_variables s) number) result }
{
    machine.file_variable(number)
}

/// Puts a variable whose parts have this reference behind others, if its name finds it in the frame at a depth.
fn push_found<M: FramedMachine>(
    alloc: Global,
    machine: &M,
    form: Form,
    depth: usize,
    named: NamedVariable<'_>,
    reference: u64,
    told: &mut Vec<Variable>,
) -> Result<(), AllocError>
    ensures { (s : Setting) (d : Debugger) (v : model.Variable) → M.stands machine.now s d → ShowsNamedAt s d depth v named.entry
        → IfOk result (λ _. map variable_view told.new.items ≡ map variable_view told.old.items ++ told_one form s d depth (place_of reference) v) }
{
    if is_found(machine, depth, named) {
        told.push(whole(alloc, machine, form, depth, named, reference)?)?;
    }
    Ok(())
}

/// Whether the name of a variable finds it in the frame at a depth, and no other one that hides it.
fn is_found<M: FramedMachine>(machine: &M, depth: usize, named: NamedVariable<'_>) -> bool
    ensures { (s : Setting) (d : Debugger) (v : model.Variable) → M.stands machine.now s d → ShowsNamedAt s d depth v named.entry
        → result ≡ is_found s d depth v }
{
    match machine.find_at(depth, named.name) {
        Some(shown) => shown.id == named.shown.id,
        None => false,
    }
}

/// A variable of the frame at a depth, whose lanes or elements have this reference.
fn whole<M: FramedMachine>(
    alloc: Global,
    machine: &M,
    form: Form,
    depth: usize,
    named: NamedVariable<'_>,
    reference: u64,
) -> Result<Variable, AllocError>
    ensures { (s : Setting) (d : Debugger) (v : model.Variable) → M.stands machine.now s d → ShowsNamedAt s d depth v named.entry
        → IfOk result (λ told. variable_view told ≡ told_whole form v (words_at s d depth v) (place_of reference)) }
{
    let shown = named.shown;
    Ok(Variable {
        name: String::from_utf8_lossy(alloc, named.name)?,
        value: whole_value(alloc, machine, form, depth, shown)?,
        type_name: type_text(alloc, shown)?,
        kind: whole_kind(shown.is_array, shown.count),
        is_constant: shown.is_constant,
        is_read_only: false,
        reference: if has_parts(shown) { reference } else { 0 },
    })
}

/// A scalar, or an array of so many elements.
fn whole_kind(is_array: bool, count: usize) -> VariableKind
    ensures { result ≡ whole_kind is_array count }
{
    if is_array {
        VariableKind::Array(count)
    } else {
        VariableKind::Plain
    }
}

/// The values of a scalar, or how many elements an array has.
fn whole_value<M: FramedMachine>(
    alloc: Global,
    machine: &M,
    form: Form,
    depth: usize,
    shown: Shown,
) -> Result<String, AllocError>
    ensures { (s : Setting) (d : Debugger) (v : model.Variable) → M.stands machine.now s d → IsShownAt s d depth v shown
        → IfOk result (λ text. string_bytes text ≡ whole_text form v.type v.is_array (words_at s d depth v)) }
{
    if shown.is_array {
        let count = shown.count;
        return format!(in alloc; "{count} elements");
    }
    value_text_at(alloc, machine, form, depth, shown)
}

/// The type of a variable, as a source has it.
fn type_text(alloc: Global, shown: Shown) -> Result<String, AllocError>
    ensures { IfOk result (λ text. string_bytes text ≡ type_text shown.rate shown.value_type shown.is_array shown.count) }
{
    let rate = match shown.rate {
        Rate::Uniform => "uniform",
        Rate::Varying => "varying",
    };
    let name = type_name(shown.value_type);
    let count = shown.count;
    if shown.is_array {
        format!(in alloc; "{rate} {name}[{count}]")
    } else {
        format!(in alloc; "{rate} {name}")
    }
}
