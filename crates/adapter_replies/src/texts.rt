//! The texts of answers.
ghost use Rattle.std.specs.Prelude.{◌≡◌, ◌<◌, ◌++◌, ◌∷◌, [], Some, IfOk, flat_map, string_bytes};
ghost use Rattle.gang_model.specs.Types.Tree.{Variable};
ghost use Rattle.gang_model.specs.Debugger.Debugger as model;
ghost use Rattle.gang_model.specs.Debugger.Debugger.{Debugger, Setting, now, part_shown, shown_words};
ghost use Rattle.gang_model.specs.Texts.Text.{text};
ghost use Rattle.debug_traits.specs.Frames.{IsShownAt};
ghost use Rattle.debug_traits.specs.Machines.{IsShown};
ghost use Rattle.debug_answers.specs.Meanings.{AreStops, IsInside, Means};
ghost use Rattle.adapter_replies.specs.Meanings.{is_bad_command, told_text, unset_text};
ghost use Rattle.adapter_replies.specs.Shown.{shown_text, without_end};
ghost use Rattle.adapter_replies.specs.Variables.{behind_blank, values, words_at};

use crate::forms::{Form, digits_for};
use crate::meanings::meaning_of;
use crate::places::depth_of;
use debug_answers::{Answer, NumberedStop, Refusal};
use debug_texts::write_answer;
use debug_traits::{AnswerWriter, FramedMachine, RecordedMachine, Shown, WriteFault};
use gang_types::IntType;
use std::alloc::{AllocError, Global};
use value_digits::{Digits, digits_text};

/// Why a value is not set where its name or the value itself is none.
const NO_VALUE: &str =
    "C1 BadCommand: a variable, a lane or an element is set to a number, true or false";

/// Takes what is written. It fails where there is no memory.
#[derive(Drop)]
struct TextWriter {
    bytes: Vec<u8>,
    has_failed: bool,
}

impl AnswerWriter for TextWriter {
    ghost written = { λ w. Some (w.bytes.items) };

    ghost has_failed = { λ w. w.has_failed };

    fn write(&mut self, bytes: &[u8]) -> Result<usize, WriteFault> {
        if self.bytes.extend_from_slice(bytes).is_err() {
            self.has_failed = true;
            return Err(WriteFault);
        }
        self.has_failed = false;
        Ok(bytes.len())
    }
}

/// The text of an answer, without the end of its last line; behind that of a refusal what it means.
///
/// # Errors
///
/// Out of memory.
pub fn answer_text<M: RecordedMachine>(
    alloc: Global,
    answer: &Answer<'_>,
    machine: &M,
    stops: &[NumberedStop],
) -> Result<String, AllocError>
    ensures { (s : Setting) (at d : Debugger) (meant : model.Answer) → M.stands machine.now s at → at.events ≡ d.events
        → AreStops s stops.now d.stops → Means s d answer.now meant → IfOk result (λ told. string_bytes told ≡ told_text answer.now (text s meant d)) }
{
    let mut told = bare_text(alloc, answer, machine, stops)?;
    if let Answer::Refused(refusal) = answer {
        told.push_str(": ")?;
        told.push_str(meaning_of(*refusal))?;
    }
    Ok(told)
}

/// Why a value was not set, with what that means. Where the line spells no command, its name or its value is none.
pub(crate) fn unset_text<M: RecordedMachine>(
    alloc: Global,
    answer: &Answer<'_>,
    machine: &M,
    stops: &[NumberedStop],
) -> Result<String, AllocError>
    ensures { (s : Setting) (at d : Debugger) (meant : model.Answer) → M.stands machine.now s at → at.events ≡ d.events
        → AreStops s stops.now d.stops → Means s d answer.now meant → IfOk result (λ told. string_bytes told ≡ unset_text answer.now (text s meant d)) }
{
    if is_bad_command(answer) {
        return String::from_str(alloc, NO_VALUE);
    }
    answer_text(alloc, answer, machine, stops)
}

/// Whether an answer says that a line spells no command.
fn is_bad_command(answer: &Answer<'_>) -> bool
    ensures { result ≡ is_bad_command answer.now }
{
    matches!(answer, Answer::Refused(Refusal::BadCommand))
}

/// The text of an answer, without the end of its last line.
fn bare_text<M: RecordedMachine>(
    alloc: Global,
    answer: &Answer<'_>,
    machine: &M,
    stops: &[NumberedStop],
) -> Result<String, AllocError>
    ensures { (s : Setting) (at d : Debugger) (meant : model.Answer) → M.stands machine.now s at → at.events ≡ d.events
        → AreStops s stops.now d.stops → Means s d answer.now meant → IfOk result (λ told. string_bytes told ≡ shown_text (text s meant d)) }
{
    let mut writer = TextWriter {
        bytes: Vec::new(alloc),
        has_failed: false,
    };
    if write_answer(answer, machine, stops, &mut writer).is_err() {
        return Err(AllocError);
    }
    String::from_utf8_lossy(alloc, without_end(writer.bytes.as_slice()))
}

/// The bytes but the last one.
pub(crate) fn without_end(bytes: &[u8]) -> &[u8]
    ensures { result.now ≡ without_end bytes.now }
{
    match bytes {
        [front @ .., _] => front,
        [] => bytes,
    }
}

/// The values of a variable in the top frame, or of a part of it, with blanks between.
pub(crate) fn top_text<M: FramedMachine>(
    alloc: Global,
    machine: &M,
    form: Form,
    shown: Shown,
    at: Option<u32>,
) -> Result<String, AllocError>
    ensures { (s : Setting) (d : Debugger) (v : Variable) → M.stands machine.now s d → IsShown s d v shown → IsInside at shown.count
        → IfOk result (λ text. string_bytes text ≡ values form v.type (part_shown at (shown_words (now s d) v))) }
{
    part_text(alloc, machine, form, depth_of(machine), shown, at)
}

/// The values of a variable in the frame at a depth, with blanks between.
pub(crate) fn value_text_at<M: FramedMachine>(
    alloc: Global,
    machine: &M,
    form: Form,
    depth: usize,
    shown: Shown,
) -> Result<String, AllocError>
    ensures { (s : Setting) (d : Debugger) (v : Variable) → M.stands machine.now s d → IsShownAt s d depth v shown
        → IfOk result (λ text. string_bytes text ≡ values form v.type (words_at s d depth v)) }
{
    let words = all_words(alloc, machine, depth, shown)?;
    words_text(alloc, form, shown.value_type, words.as_slice())
}

/// The value of a lane or an element of a variable in the frame at a depth.
pub(crate) fn element_text<M: FramedMachine>(
    alloc: Global,
    machine: &M,
    form: Form,
    depth: usize,
    shown: Shown,
    index: usize,
) -> Result<String, AllocError>
    ensures { (s : Setting) (d : Debugger) (v : Variable) → M.stands machine.now s d → IsShownAt s d depth v shown → index < shown.count
        → IfOk result (λ text. string_bytes text ≡ values form v.type (part_shown (Some index) (words_at s d depth v))) }
{
    word_text(
        alloc,
        form,
        shown.value_type,
        machine.word_at(depth, shown, index),
    )
}

/// The values of a part of a variable in the frame at a depth, or of all of it.
pub(crate) fn part_text<M: FramedMachine>(
    alloc: Global,
    machine: &M,
    form: Form,
    depth: usize,
    shown: Shown,
    at: Option<u32>,
) -> Result<String, AllocError>
    ensures { (s : Setting) (d : Debugger) (v : Variable) → M.stands machine.now s d → IsShownAt s d depth v shown → IsInside at shown.count
        → IfOk result (λ text. string_bytes text ≡ values form v.type (part_shown at (words_at s d depth v))) }
{
    match at {
        None => value_text_at(alloc, machine, form, depth, shown),
        Some(index) => element_text(alloc, machine, form, depth, shown, index as usize),
    }
}

/// The value of a word of a type.
pub(crate) fn word_text(
    alloc: Global,
    form: Form,
    value_type: IntType,
    word: u64,
) -> Result<String, AllocError>
    ensures { IfOk result (λ text. string_bytes text ≡ values form value_type (word ∷ [])) }
{
    words_text(alloc, form, value_type, &[word])
}

/// The words of a variable in the frame at a depth.
pub(crate) fn all_words<M: FramedMachine>(
    alloc: Global,
    machine: &M,
    depth: usize,
    shown: Shown,
) -> Result<Vec<u64>, AllocError>
    ensures { (s : Setting) (d : Debugger) (v : Variable) → M.stands machine.now s d → IsShownAt s d depth v shown
        → IfOk result (λ words. words.items ≡ words_at s d depth v) }
{
    let mut words = Vec::new(alloc);
    for index in 0..shown.count {
        words.push(machine.word_at(depth, shown, index))?;
    }
    Ok(words)
}

/// The values of words of a type, with blanks between.
fn words_text(
    alloc: Global,
    form: Form,
    value_type: IntType,
    words: &[u64],
) -> Result<String, AllocError>
    ensures { IfOk result (λ text. string_bytes text ≡ values form value_type words.now) }
{
    match words {
        [] => Ok(String::new(alloc)),
        [first, others @ ..] => {
            let digits = digits_for(form, value_type);
            let mut text = digits_text(alloc, digits, value_type, *first)?;
            push_words(alloc, digits, value_type, others, &mut text)?;
            Ok(text)
        }
    }
}

/// Puts a blank and the text of a word behind others, for each of some words.
pub(crate) fn push_words(
    alloc: Global,
    digits: Digits,
    value_type: IntType,
    words: &[u64],
    text: &mut String,
) -> Result<(), AllocError>
    ensures { IfOk result (λ _. string_bytes text.new ≡ string_bytes text.old ++ flat_map (behind_blank digits value_type) words.now) }
{
    for word in words {
        text.push_str(" ")?;
        let shown = digits_text(alloc, digits, value_type, *word)?;
        text.push_str(shown.as_str())?;
    }
    Ok(())
}
