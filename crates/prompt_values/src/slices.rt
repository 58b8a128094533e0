//! Some elements of an array: `table@8`, `table[3]@8`.
ghost use Rattle.prompt_texts.specs.Shown.{Puts, masked};
ghost use Rattle.prompt_values.specs.Printed.{line_or_none};

use crate::numbered::Printed;
use crate::values::print_elements;
use debug_traits::{AnswerWriter, Shown};
use frame_expressions::ExpressionMachine;
use frame_values::{ExpressionValue, NoValue, value_of_expression};
use gang_types::{Rate, value};
use prompt_lines::count_place;
use prompt_scenes::Scene;
use prompt_texts::{Page, Spelled, tell_no_value};
use value_digits::Digits;

/// The widest gang.
const WIDEST: usize = 16;

/// Elements of an array, from one on up to another.
#[derive(Clone, Copy)]
pub(crate) struct Slice {
    shown: Shown,
    from: usize,
    to: usize,
}

/// Why a text stands for no elements.
#[derive(Clone, Copy)]
pub(crate) enum NoSlice<'a> {
    /// No array has this name.
    NoArray(&'a [u8]),
    /// The index, or the number of elements, has no value.
    NoNumber(&'a [u8], NoValue),
    /// The value is different in each lane.
    Varies(&'a [u8]),
    /// The array has so many elements, and the text names others.
    Outside(&'a [u8], usize),
}

/// The elements that a text with `@` stands for, in the frame at a depth.
pub(crate) fn slice_of<'a, M: ExpressionMachine>(
    text: &'a [u8],
    depth: usize,
    scene: Scene<'_>,
    machine: &M,
) -> Result<Slice, NoSlice<'a>> {
    let place = count_place(text);
    let before = text[..place.saturating_sub(1)].trim_ascii();
    slice_by(before, &text[place..], depth, scene, machine)
}

/// The elements from what stands before `@` on, as many as what stands behind it says.
fn slice_by<'a, M: ExpressionMachine>(
    before: &'a [u8],
    behind: &'a [u8],
    depth: usize,
    scene: Scene<'_>,
    machine: &M,
) -> Result<Slice, NoSlice<'a>> {
    let (name, index) = name_and_index(before);
    let shown = match machine.find_at(depth, name) {
        Some(shown) if shown.is_array => shown,
        _ => return Err(NoSlice::NoArray(name)),
    };
    let from = match index {
        None => 0,
        Some(index) => number_of(index, depth, scene, machine)?,
    };
    let count = number_of(behind, depth, scene, machine)?;
    let all = shown.count as i128;
    if from < 0 || count < 1 || from >= all || count > all - from {
        return Err(NoSlice::Outside(name, shown.count));
    }
    Ok(Slice {
        shown,
        from: from as usize,
        to: (from + count) as usize,
    })
}

/// A name, and the index that stands in brackets behind it.
fn name_and_index(text: &[u8]) -> (&[u8], Option<&[u8]>) {
    let len = text.iter().take_while(|byte| **byte != b'[').count();
    let name = text.get(..len).unwrap_or(&[]);
    match in_brackets(text.get(len..).unwrap_or(&[])) {
        Some(index) => (name.trim_ascii(), Some(index)),
        None => (text, None),
    }
}

/// What stands between brackets.
fn in_brackets(text: &[u8]) -> Option<&[u8]> {
    text.strip_prefix(b"[")?.strip_suffix(b"]")
}

/// The value of a uniform expression.
fn number_of<'a, M: ExpressionMachine>(
    text: &'a [u8],
    depth: usize,
    scene: Scene<'_>,
    machine: &M,
) -> Result<i128, NoSlice<'a>> {
    match value_of_expression(scene.alloc, text, depth, machine) {
        Ok(found) if found.rate == Rate::Varying => Err(NoSlice::Varies(text)),
        Ok(found) => Ok(uniform_number(&found)),
        Err(why) => Err(NoSlice::NoNumber(text, why)),
    }
}

/// The number of a uniform value: that of the lowest lane that has it.
fn uniform_number(found: &ExpressionValue) -> i128 {
    for lane in 0..WIDEST {
        if found.lanes.lanes.has::<WIDEST>(lane) {
            return value(found.value_type, found.lanes.words[lane]);
        }
    }
    0
}

/// Shows elements of an array of the frame at a depth behind what was typed for them, and gives what was shown.
pub(crate) fn print_slice<M: ExpressionMachine, O: AnswerWriter + Drop>(
    typed: &[u8],
    slice: &Slice,
    digits: Digits,
    depth: usize,
    scene: Scene<'_>,
    machine: &M,
    page: &mut Page<O>,
) -> Option<Printed>
    ensures { Puts (line_or_none (masked typed.now) digits result) page.old.has_failed page.new.has_failed (O.written page.old.writer) (O.written page.new.writer) }
{
    print_elements(
        typed,
        digits,
        slice.shown,
        slice.from,
        slice.to,
        depth,
        scene,
        machine,
        page,
    )
}

/// Tells why a text stands for no elements.
pub(crate) fn tell_no_slice<O: AnswerWriter + Drop>(why: &NoSlice<'_>, page: &mut Page<O>) {
    match why {
        NoSlice::NoArray(name) => {
            page.put(
                b"`@` shows elements of an array, and in scope in this frame or of the file no array is named ",
            );
            page.put_masked(name);
            page.put(b".\n");
        }
        NoSlice::NoNumber(text, why) => {
            let text = *text;
            tell_no_value(why, Spelled { line: text, text }, page);
        }
        NoSlice::Varies(text) => {
            page.put_masked(text.trim_ascii());
            page.put(
                b" is different in each lane: before and behind `@` stand uniform values alone.\n",
            );
        }
        NoSlice::Outside(name, count) => tell_outside(name, *count, page),
    }
}

/// Tells how many elements an array has.
fn tell_outside<O: AnswerWriter + Drop>(name: &[u8], count: usize, page: &mut Page<O>) {
    page.put(b"C8 OutOfRange: ");
    page.put_masked(name);
    page.put(b" has ");
    page.put_number(count as i128);
    page.put(b" elements, and the first has the number 0: `@` shows one or more of them.\n");
}
