//! The record as JSON.
ghost use Rattle.std.specs.Prelude.{◌≡◌, ◌∷◌, [], codes, decimal, false, is_err, IfOk, map, slice_range};
ghost use Rattle.std.specs.List.{concat};
ghost use Rattle.std.specs.Io.KnownBytes.{Appends};
ghost use Rattle.json_texts.specs.Json.{list_text, string_text};
ghost use Rattle.run_page.specs.Moments.{steps_of};
ghost use Rattle.run_page.specs.RecordText as spec;
ghost use Rattle.run_page.specs.RecordText.{call_text, calls_text, end_text, fault_name, fault_number, has_same_calls, head_text, kind_name, moment_text, moment_texts, record_text, stand_text, variable_text};

use crate::changes::write_changes;
use crate::moments::{Call, Moment, Stand};
use crate::page::Subject;
use crate::record::Record;
use crate::variables::Variable;
use debug_traits::{AnswerWriter, Fault, WriteFault};
use gang_types::{FaultName, IntType, Rate};
use json_texts::Part::{Any, Number, Text};
use json_texts::{write_comma, write_part, write_parts};
use lane_picture::StepsEnd;

/// The most lanes of a gang.
const WIDEST: usize = 16;

/// Writes the record of a run.
///
/// # Errors
///
/// `WriteFault` where the writer fails or takes 0 bytes.
pub(crate) fn write_record<O: AnswerWriter>(
    kept: &Record,
    end: StepsEnd,
    subject: &Subject<'_>,
    writer: &mut O,
) -> Result<(), WriteFault>
    requires works { O.has_failed writer.old ≡ false }
    ensures written { IfOk result (λ _. Appends (O.written writer.old) (O.written writer.new) (record_text subject.now end kept.now)) }
    ensures failed { O.has_failed writer.new ≡ is_err result }
{
    write_head(kept, subject, writer)?;
    write_end(end, writer)?;
    writer.write_all(b",\n\"functions\":")?;
    write_functions(kept.functions.as_slice(), writer)?;
    writer.write_all(b",\n\"variables\":")?;
    write_variables(kept.variables.as_slice(), writer)?;
    writer.write_all(b",\n\"steps\":")?;
    write_steps(kept.moments.as_slice(), writer)?;
    writer.write_all(b",\n\"moments\":")?;
    write_moments(kept, kept.moments.as_slice(), writer)?;
    writer.write_all(b"}")
}

/// Writes what the record is of.
fn write_head<O: AnswerWriter>(
    kept: &Record,
    subject: &Subject<'_>,
    writer: &mut O,
) -> Result<(), WriteFault>
    requires works { O.has_failed writer.old ≡ false }
    ensures written { IfOk result (λ _. Appends (O.written writer.old) (O.written writer.new) (head_text subject.now kept.now)) }
    ensures failed { O.has_failed writer.new ≡ is_err result }
{
    let head = [
        Text(b"{\"name\":"),
        Any(subject.title),
        Text(b",\n\"source\":"),
        Any(subject.source),
        Text(b",\n\"width\":"),
        Number(kept.width),
        Text(b",\"first\":"),
        Number(subject.first_number as usize),
        Text(b",\"most_words\":"),
        Number(subject.most_words as usize),
        Text(b",\"end\":"),
    ];
    write_parts(writer, &head)
}

/// Writes how a run ended: a word, and of a fault its number, its name and its lane.
fn write_end<O: AnswerWriter>(end: StepsEnd, writer: &mut O) -> Result<(), WriteFault>
    requires works { O.has_failed writer.old ≡ false }
    ensures written { IfOk result (λ _. Appends (O.written writer.old) (O.written writer.new) (end_text end)) }
    ensures failed { O.has_failed writer.new ≡ is_err result }
{
    match end {
        StepsEnd::Ended => write_parts(writer, &[Text(b"["), Any(b"ended"), Text(b"]")]),
        StepsEnd::StepLimit => write_parts(writer, &[Text(b"["), Any(b"limit"), Text(b"]")]),
        StepsEnd::AtFault(fault) => write_fault(fault, writer),
    }
}

fn write_fault<O: AnswerWriter>(fault: Fault, writer: &mut O) -> Result<(), WriteFault>
    requires works { O.has_failed writer.old ≡ false }
    ensures written { IfOk result (λ _. Appends (O.written writer.old) (O.written writer.new) (end_text (StepsEnd.AtFault fault))) }
    ensures failed { O.has_failed writer.new ≡ is_err result }
{
    let parts = [
        Text(b"["),
        Any(b"fault"),
        Text(b","),
        Any(fault_number(fault.name)),
        Text(b","),
        Any(fault_name(fault.name)),
        Text(b","),
        Number(fault.lane),
        Text(b"]"),
    ];
    write_parts(writer, &parts)
}

fn fault_number(name: FaultName) -> &'static [u8]
    ensures { result.now ≡ fault_number name }
{
    match name {
        FaultName::DivideByZero => b"F1",
        FaultName::Index => b"F2",
        FaultName::LaneIndex => b"F3",
        FaultName::Assert => b"F4",
        FaultName::CallDepth => b"F5",
    }
}

fn fault_name(name: FaultName) -> &'static [u8]
    ensures { result.now ≡ fault_name name }
{
    match name {
        FaultName::DivideByZero => b"DivideByZero",
        FaultName::Index => b"Index",
        FaultName::LaneIndex => b"LaneIndex",
        FaultName::Assert => b"Assert",
        FaultName::CallDepth => b"CallDepth",
    }
}

fn write_functions<O: AnswerWriter>(functions: &[Vec<u8>], writer: &mut O) -> Result<(), WriteFault>
    requires works { O.has_failed writer.old ≡ false }
    ensures written { IfOk result (λ _. Appends (O.written writer.old) (O.written writer.new) (list_text (map (λ name. string_text name.items) functions.now))) }
    ensures failed { O.has_failed writer.new ≡ is_err result }
{
    writer.write_all(b"[")?;
    for (number, name) in functions.iter().enumerate() {
        write_comma(number, writer)?;
        write_part(writer, Any(name.as_slice()))?;
    }
    writer.write_all(b"]")
}

fn write_variables<O: AnswerWriter>(
    variables: &[Variable],
    writer: &mut O,
) -> Result<(), WriteFault>
    requires works { O.has_failed writer.old ≡ false }
    ensures written { IfOk result (λ _. Appends (O.written writer.old) (O.written writer.new) (list_text (map variable_text variables.now))) }
    ensures failed { O.has_failed writer.new ≡ is_err result }
{
    writer.write_all(b"[")?;
    for (number, variable) in variables.iter().enumerate() {
        write_comma(number, writer)?;
        write_variable(variable, writer)?;
    }
    writer.write_all(b"]")
}

fn write_variable<O: AnswerWriter>(variable: &Variable, writer: &mut O) -> Result<(), WriteFault>
    requires works { O.has_failed writer.old ≡ false }
    ensures written { IfOk result (λ _. Appends (O.written writer.old) (O.written writer.new) (variable_text variable.now)) }
    ensures failed { O.has_failed writer.new ≡ is_err result }
{
    let shown = variable.shown;
    let parts = [
        Text(b"["),
        Number(variable.depth),
        Text(b","),
        Any(variable.name.as_slice()),
        Text(b","),
        Any(type_name(shown.value_type)),
        Text(b","),
        Any(kind_name(shown.is_array, shown.rate)),
        Text(b","),
        Number(shown.count),
        Text(b"]"),
    ];
    write_parts(writer, &parts)
}

/// What the words of a variable are: elements, lanes, or one for all lanes.
fn kind_name(is_array: bool, rate: Rate) -> &'static [u8]
    ensures { result.now ≡ kind_name is_array rate }
{
    if is_array {
        return b"elements";
    }
    match rate {
        Rate::Varying => b"lanes",
        Rate::Uniform => b"one",
    }
}

fn type_name(value_type: IntType) -> &'static [u8]
    ensures { result.now ≡ spec.type_name value_type }
{
    match value_type {
        IntType::Bool => b"bool",
        IntType::Int8 => b"int8",
        IntType::Int16 => b"int16",
        IntType::Int32 => b"int32",
        IntType::Int64 => b"int64",
        IntType::Uint8 => b"uint8",
        IntType::Uint16 => b"uint16",
        IntType::Uint32 => b"uint32",
        IntType::Uint64 => b"uint64",
    }
}

/// Writes how many steps were done before each of moments.
fn write_steps<O: AnswerWriter>(moments: &[Moment], writer: &mut O) -> Result<(), WriteFault>
    requires works { O.has_failed writer.old ≡ false }
    ensures written { IfOk result (λ _. Appends (O.written writer.old) (O.written writer.new) (list_text (map decimal (steps_of moments.now)))) }
    ensures failed { O.has_failed writer.new ≡ is_err result }
{
    writer.write_all(b"[")?;
    for (number, moment) in moments.iter().enumerate() {
        write_comma(number, writer)?;
        write_part(writer, Number(moment.taken))?;
    }
    writer.write_all(b"]")
}

/// Writes moments, of which the first one has no calls before it.
fn write_moments<O: AnswerWriter>(
    kept: &Record,
    moments: &[Moment],
    writer: &mut O,
) -> Result<(), WriteFault>
    requires works { O.has_failed writer.old ≡ false }
    ensures written { IfOk result (λ _. Appends (O.written writer.old) (O.written writer.new) (list_text (moment_texts kept.now 0 moments.now))) }
    ensures failed { O.has_failed writer.new ≡ is_err result }
{
    writer.write_all(b"[")?;
    let mut before = 0u128;
    for (number, moment) in moments.iter().enumerate() {
        write_comma(number, writer)?;
        write_moment(kept, before, moment, writer)?;
        before = call_count(moment);
    }
    writer.write_all(b"]")
}

/// Writes a moment, where the one before it has so many calls.
fn write_moment<O: AnswerWriter>(
    kept: &Record,
    before: u128,
    moment: &Moment,
    writer: &mut O,
) -> Result<(), WriteFault>
    requires works { O.has_failed writer.old ≡ false }
    ensures written { IfOk result (λ _. Appends (O.written writer.old) (O.written writer.new) (moment_text kept.now before moment.now)) }
    ensures failed { O.has_failed writer.new ≡ is_err result }
{
    write_stand(moment.stand, writer)?;
    let changes = part_of(
        kept.changes.as_slice(),
        moment.first_change,
        moment.end_of_changes,
    );
    write_changes(kept.variables.as_slice(), changes, writer)?;
    write_calls(kept.calls.as_slice(), before, moment, writer)?;
    writer.write_all(b"]")
}

/// The items from one on up to another.
fn part_of<T>(all: &[T], first: usize, end: usize) -> &[T]
    ensures { result.now ≡ slice_range all.now first end }
{
    let rest = match all.get(first..) {
        Some(rest) => rest,
        None => &[],
    };
    match rest.get(..end.saturating_sub(first)) {
        Some(part) => part,
        None => rest,
    }
}

/// Writes the begin of a moment: where it stands.
fn write_stand<O: AnswerWriter>(stand: Option<Stand>, writer: &mut O) -> Result<(), WriteFault>
    requires works { O.has_failed writer.old ≡ false }
    ensures written { IfOk result (λ _. Appends (O.written writer.old) (O.written writer.new) (concat (codes "\n[" ∷ stand_text stand ∷ codes "," ∷ []))) }
    ensures failed { O.has_failed writer.new ≡ is_err result }
{
    let Some(stand) = stand else {
        return writer.write_all(b"\n[0,0,0,0,0,");
    };
    let parts = [
        Text(b"\n["),
        Number(stand.place.line as usize),
        Text(b","),
        Number(stand.place.col as usize),
        Text(b","),
        Number(stand.function),
        Text(b","),
        Number(stand.depth),
        Text(b","),
        Number(stand.lanes.word::<WIDEST>() as usize),
        Text(b","),
    ];
    write_parts(writer, &parts)
}

/// How many calls are open at a moment.
fn call_count(moment: &Moment) -> u128
    ensures { result ≡ spec.call_count moment.now }
{
    moment.kept_calls as u128 + moment.end_of_calls.saturating_sub(moment.first_call) as u128
}

/// Whether the calls of a moment are those of the one before, which has so many.
fn has_same_calls(before: u128, moment: &Moment) -> bool
    ensures { result ≡ has_same_calls before moment.now }
{
    moment.kept_calls as u128 == before
        && moment.end_of_calls.saturating_sub(moment.first_call) == 0
}

/// Writes the calls of a moment where they are not those of the one before: how many of these stay, and those that it adds.
fn write_calls<O: AnswerWriter>(
    calls: &[Call],
    before: u128,
    moment: &Moment,
    writer: &mut O,
) -> Result<(), WriteFault>
    requires works { O.has_failed writer.old ≡ false }
    ensures written { IfOk result (λ _. Appends (O.written writer.old) (O.written writer.new) (calls_text calls.now before moment.now)) }
    ensures failed { O.has_failed writer.new ≡ is_err result }
{
    if has_same_calls(before, moment) {
        return Ok(());
    }
    let parts = [Text(b","), Number(moment.kept_calls), Text(b",")];
    write_parts(writer, &parts)?;
    let added = part_of(calls, moment.first_call, moment.end_of_calls);
    write_call_list(added, writer)
}

fn write_call_list<O: AnswerWriter>(calls: &[Call], writer: &mut O) -> Result<(), WriteFault>
    requires works { O.has_failed writer.old ≡ false }
    ensures written { IfOk result (λ _. Appends (O.written writer.old) (O.written writer.new) (list_text (map call_text calls.now))) }
    ensures failed { O.has_failed writer.new ≡ is_err result }
{
    writer.write_all(b"[")?;
    for (number, call) in calls.iter().enumerate() {
        write_comma(number, writer)?;
        write_call(call, writer)?;
    }
    writer.write_all(b"]")
}

fn write_call<O: AnswerWriter>(call: &Call, writer: &mut O) -> Result<(), WriteFault>
    requires works { O.has_failed writer.old ≡ false }
    ensures written { IfOk result (λ _. Appends (O.written writer.old) (O.written writer.new) (call_text call.now)) }
    ensures failed { O.has_failed writer.new ≡ is_err result }
{
    let parts = [
        Text(b"["),
        Number(call.place.line as usize),
        Text(b","),
        Number(call.place.col as usize),
        Text(b","),
        Number(call.function),
        Text(b"]"),
    ];
    write_parts(writer, &parts)
}
