//! The lanes and elements of variables.
ghost use Rattle.std.specs.Prelude.{◌≡◌, ◌+◌, ◌-◌, ◌*◌, ◌<◌, ◌≤◌, ◌^◌, IfOk, IfSome, ℕ, ◌||◌, Option, map, option_map};
ghost use Rattle.std.specs.List.{range_with_len};
ghost use Rattle.gang_types.specs.Masks.{IsGangWidth};
ghost use Rattle.gang_model.specs.Types.Tree as model;
ghost use Rattle.gang_model.specs.Debugger.Debugger.{Debugger, Setting};
ghost use Rattle.debug_traits.specs.Frames.{ShowsNamedAt};
ghost use Rattle.adapter_replies.specs.Variables.{ShowsOptionAt, has_range, is_varying, part_kind, range_count, ranges_in, told_all, told_between, told_of_range, told_option, told_part, told_parts, told_range, told_range_option, told_ranges, lanes_at, type_name, variable_view, waits_at, words_at};
ghost use Rattle.adapter_replies.specs.Waiting.{position_lanes};

use crate::forms::Form;
use crate::pages::{asks_places, span};
use crate::places::{Place, range_of, reference_of};
use crate::texts::element_text;
use crate::waiting::{standing, waits};
use adapter_requests::{Filter, Page, Variable, VariableKind};
use debug_traits::{FramedMachine, NamedVariable, Position, Shown};
use gang_types::{IntType, Rate};
use std::alloc::{AllocError, Global};

/// How many elements a range has, and the most lanes or elements that are shown where a page asks for no places.
const RANGE: usize = 1_000;

/// The lanes or elements of a variable whose parts are at a place, if there is one, as a page asks for them.
pub(crate) fn parts_of<M: FramedMachine>(
    alloc: Global,
    machine: &M,
    form: Form,
    depth: usize,
    place: Place,
    named: Option<NamedVariable<'_>>,
    page: Page,
) -> Result<Option<Vec<Variable>>, AllocError>
    ensures { (s : Setting) (d : Debugger) (given : Option model.Variable) → M.stands machine.now s d → ShowsOptionAt s d depth given named.entry
        → IfOk result (λ told. option_map (λ variables. map variable_view variables.items) told ≡ told_option form page s d depth place given) }
{
    match named {
        None => Ok(None),
        Some(named) => Ok(Some(parts(alloc, machine, form, depth, place, named, page)?)),
    }
}

/// A range of the elements of a variable, if there is one that has it, as a page asks for them.
pub(crate) fn range_parts_of<M: FramedMachine>(
    alloc: Global,
    machine: &M,
    form: Form,
    depth: usize,
    range: usize,
    named: Option<NamedVariable<'_>>,
    page: Page,
) -> Result<Option<Vec<Variable>>, AllocError>
    ensures { (s : Setting) (d : Debugger) (given : Option model.Variable) → M.stands machine.now s d → ShowsOptionAt s d depth given named.entry
        → IfOk result (λ told. option_map (λ variables. map variable_view variables.items) told ≡ told_range_option form page s d depth range given) }
{
    match named {
        None => Ok(None),
        Some(named) if has_range(named.shown.is_array, named.shown.count, range) => {
            Ok(Some(range_parts(alloc, machine, form, depth, range, named, page)?))
        }
        Some(_) => Ok(None),
    }
}

/// The lanes or elements of a variable; of a uniform scalar there are none. Many are shown in ranges, where a page asks for no places.
fn parts<M: FramedMachine>(
    alloc: Global,
    machine: &M,
    form: Form,
    depth: usize,
    place: Place,
    named: NamedVariable<'_>,
    page: Page,
) -> Result<Vec<Variable>, AllocError>
    ensures { (s : Setting) (d : Debugger) (v : model.Variable) → M.stands machine.now s d → ShowsNamedAt s d depth v named.entry
        → IfOk result (λ told. map variable_view told.items ≡ told_parts form page (lanes_at s d depth) place v (words_at s d depth v)) }
{
    match page.filter {
        Filter::Named => Ok(Vec::new(alloc)),
        Filter::All | Filter::Indexed => all_parts(alloc, machine, form, depth, place, named, page),
    }
}

/// The lanes or elements of a variable, or ranges of them, whatever kind a page asks for.
fn all_parts<M: FramedMachine>(
    alloc: Global,
    machine: &M,
    form: Form,
    depth: usize,
    place: Place,
    named: NamedVariable<'_>,
    page: Page,
) -> Result<Vec<Variable>, AllocError>
    ensures { (s : Setting) (d : Debugger) (v : model.Variable) → M.stands machine.now s d → ShowsNamedAt s d depth v named.entry
        → IfOk result (λ told. map variable_view told.items ≡ told_all form page (lanes_at s d depth) place v (words_at s d depth v)) }
{
    let count = named.shown.count;
    if !has_parts(named.shown) {
        Ok(Vec::new(alloc))
    } else if asks_places(page) || count <= RANGE {
        between(alloc, machine, form, depth, named, page, 0, count)
    } else {
        ranges(alloc, named, place)
    }
}

/// Whether a variable of so many elements has this range.
fn has_range(is_array: bool, count: usize, range: usize) -> bool
    ensures { result ≡ has_range is_array count range }
{
    is_array && count > RANGE && range <= (count - 1) / RANGE
}

/// The elements of a range of a variable.
fn range_parts<M: FramedMachine>(
    alloc: Global,
    machine: &M,
    form: Form,
    depth: usize,
    range: usize,
    named: NamedVariable<'_>,
    page: Page,
) -> Result<Vec<Variable>, AllocError>
    requires { range * 1000 < named.shown.count }
    ensures { (s : Setting) (d : Debugger) (v : model.Variable) → M.stands machine.now s d → ShowsNamedAt s d depth v named.entry
        → IfOk result (λ told. map variable_view told.items ≡ told_of_range form page (lanes_at s d depth) range v (words_at s d depth v)) }
{
    match page.filter {
        Filter::Named => Ok(Vec::new(alloc)),
        Filter::All | Filter::Indexed => {
            let many = range_count(named.shown.count, range);
            between(
                alloc,
                machine,
                form,
                depth,
                named,
                page,
                range * RANGE,
                many,
            )
        }
    }
}

/// So many lanes or elements of a variable from one on, as a page asks for them.
fn between<M: FramedMachine>(
    alloc: Global,
    machine: &M,
    form: Form,
    depth: usize,
    named: NamedVariable<'_>,
    page: Page,
    first: usize,
    count: usize,
) -> Result<Vec<Variable>, AllocError>
    requires { first + count ≤ named.shown.count }
    ensures { (s : Setting) (d : Debugger) (v : model.Variable) → M.stands machine.now s d → ShowsNamedAt s d depth v named.entry
        → IfOk result (λ told. map variable_view told.items ≡ told_between form page (lanes_at s d depth) v (words_at s d depth v) first count) }
{
    let (first, count) = span(page, first, count);
    let position = standing(machine, depth);
    parts_from(alloc, machine, form, depth, named, position, first, count)
}

/// So many lanes or elements of a variable from one on, where the active lanes are those of a position.
fn parts_from<M: FramedMachine>(
    alloc: Global,
    machine: &M,
    form: Form,
    depth: usize,
    named: NamedVariable<'_>,
    position: Option<Position<'_>>,
    first: usize,
    count: usize,
) -> Result<Vec<Variable>, AllocError>
    requires width { IfSome position (λ at. IsGangWidth at.width) }
    requires within { first + count ≤ named.shown.count }
    ensures { (s : Setting) (d : Debugger) (v : model.Variable) → M.stands machine.now s d → ShowsNamedAt s d depth v named.entry
        → IfOk result (λ told. map variable_view told.items ≡ map (told_part form (position_lanes position.entry) v (words_at s d depth v)) (range_with_len first count)) }
{
    let mut told = Vec::new(alloc);
    for offset in 0..count {
        told.push(part(alloc, machine, form, depth, named, position, first + offset)?)?;
    }
    Ok(told)
}

/// A lane or an element of a variable, where the active lanes are those of a position.
fn part<M: FramedMachine>(
    alloc: Global,
    machine: &M,
    form: Form,
    depth: usize,
    named: NamedVariable<'_>,
    position: Option<Position<'_>>,
    index: usize,
) -> Result<Variable, AllocError>
    requires { IfSome position (λ at. IsGangWidth at.width) }
    ensures { (s : Setting) (d : Debugger) (v : model.Variable) → M.stands machine.now s d → ShowsNamedAt s d depth v named.entry
        → index < named.entry.shown.count → IfOk result (λ told. variable_view told ≡ told_part form (position_lanes position.entry) v (words_at s d depth v) index) }
{
    let shown = named.shown;
    let mut name = String::from_utf8_lossy(alloc, named.name)?;
    name.push_str(format!(in alloc; "[{index}]")?.as_str())?;
    Ok(Variable {
        name,
        value: element_text(alloc, machine, form, depth, shown, index)?,
        type_name: String::from_str(alloc, type_name(shown.value_type))?,
        kind: part_kind(waits_at(shown.is_array, position, index)),
        is_constant: shown.is_constant,
        is_read_only: false,
        reference: 0,
    })
}

/// Whether the part of a variable at an index is a lane that waits; elements of arrays are none.
fn waits_at(is_array: bool, position: Option<Position<'_>>, index: usize) -> bool
    requires { IfSome position (λ at. IsGangWidth at.width) }
    ensures { result ≡ waits_at (position_lanes position.entry) is_array index }
{
    !is_array && waits(position, index)
}

/// A part of a variable that waits, or not.
fn part_kind(waits: bool) -> VariableKind
    ensures { result ≡ part_kind waits }
{
    if waits {
        VariableKind::Waits
    } else {
        VariableKind::Plain
    }
}

/// The ranges of an array whose parts are at a place.
fn ranges(
    alloc: Global,
    named: NamedVariable<'_>,
    place: Place,
) -> Result<Vec<Variable>, AllocError>
    ensures { (s : Setting) (d : Debugger) (depth : ℕ) (v : model.Variable) → ShowsNamedAt s d depth v named.entry
        → IfOk result (λ told. map variable_view told.items ≡ told_ranges v named.entry.shown.count place) }
{
    let mut told = Vec::new(alloc);
    for range in 0..ranges_in(named.shown.count) {
        told.push(range_shown(alloc, named, place, range)?)?;
    }
    Ok(told)
}

/// How many ranges so many elements are.
fn ranges_in(count: usize) -> usize
    ensures { result ≡ ranges_in count }
{
    let full = count / RANGE;
    if count % RANGE == 0 { full } else { full + 1 }
}

/// How many elements a range of so many has.
fn range_count(count: usize, range: usize) -> usize
    requires { range * 1000 ≤ count }
    ensures { result ≡ range_count count range }
{
    (count - range * RANGE).min(RANGE)
}

/// A range of an array whose parts are at a place.
fn range_shown(
    alloc: Global,
    named: NamedVariable<'_>,
    place: Place,
    range: usize,
) -> Result<Variable, AllocError>
    requires { range * 1000 < named.shown.count }
    ensures { (s : Setting) (d : Debugger) (depth : ℕ) (v : model.Variable) → ShowsNamedAt s d depth v named.entry
        → IfOk result (λ told. variable_view told ≡ told_range v named.entry.shown.count place range) }
{
    let shown = named.shown;
    let first = range * RANGE;
    let many = range_count(shown.count, range);
    let last = first + many - 1;
    let mut name = String::from_utf8_lossy(alloc, named.name)?;
    name.push_str(format!(in alloc; "[{first}..{last}]")?.as_str())?;
    Ok(Variable {
        name,
        value: format!(in alloc; "{many} elements")?,
        type_name: String::from_str(alloc, type_name(shown.value_type))?,
        kind: VariableKind::Range,
        is_constant: shown.is_constant,
        is_read_only: false,
        reference: reference_of(range_of(place, range)),
    })
}

/// Whether a variable has lanes or elements.
pub(crate) fn has_parts(shown: Shown) -> bool
    ensures { result ≡ (shown.is_array || is_varying shown.rate) }
{
    shown.is_array || shown.rate == Rate::Varying
}

/// The name of a type.
pub(crate) fn type_name(value_type: IntType) -> &'static str
    ensures { result.now ≡ type_name value_type }
{
    match value_type {
        IntType::Bool => "bool",
        IntType::Int8 => "int8",
        IntType::Int16 => "int16",
        IntType::Int32 => "int32",
        IntType::Int64 => "int64",
        IntType::Uint8 => "uint8",
        IntType::Uint16 => "uint16",
        IntType::Uint32 => "uint32",
        IntType::Uint64 => "uint64",
    }
}
