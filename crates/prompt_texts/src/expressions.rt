//! The values of expressions, and why a text has none.
ghost use Rattle.std.specs.Prelude.{◌<◌};
ghost use Rattle.gang_types.specs.Masks.{IsGangWidth, lanes_of};
ghost use Rattle.prompt_texts.specs.Forms as spec;
ghost use Rattle.prompt_texts.specs.Shown.{Puts};

use crate::answers::fault_text;
use crate::page::Page;
use crate::refusals::put_typed;
use crate::values::put_word;
use debug_traits::{AnswerWriter, Fault};
use frame_expressions::LaneWords;
use frame_values::{ExpressionValue, NoValue};
use gang_model::{RefusalNumber, SourceRefusal};
use gang_types::{IntType, Place, Rate};
use placed_expressions::ExpressionRefusal;
use prompt_help::why_no_value;
use value_digits::Digits;

/// The widest gang.
const WIDEST: usize = 16;

/// What is said of a type that does not fit, where an index is written: it may be that of a lane.
const NO_LANE: &[u8] =
    b"the type does not fit: an array has no value without an index, and a bool is no number; in an expression lane 2 of a varying x is `extract(x, 2)`.\n";

/// An expression as it was typed: its text is the end of a line.
#[derive(Clone, Copy)]
pub struct Spelled<'a> {
    pub line: &'a [u8],
    pub text: &'a [u8],
}

/// Writes a line: an expression as it is typed, and its value in each lane, lane 0 first, with `.` for a lane that waits. A uniform
/// expression has one value.
pub fn show_expression<O: AnswerWriter + Drop>(
    typed: &[u8],
    digits: Digits,
    value: &ExpressionValue,
    page: &mut Page<O>,
)
    ensures { IsGangWidth value.now.lanes.width
        → Puts (spec.expression_line digits typed.now value.now) page.old.has_failed page.new.has_failed (O.written page.old.writer) (O.written page.new.writer) }
{
    page.put_masked(typed);
    page.put(b" =");
    put_expression(digits, value, page);
    page.put(b"\n");
}

/// Writes the value of an expression.
fn put_expression<O: AnswerWriter + Drop>(
    digits: Digits,
    value: &ExpressionValue,
    page: &mut Page<O>,
)
    ensures { IsGangWidth value.now.lanes.width
        → Puts (spec.expression_text digits value.now) page.old.has_failed page.new.has_failed (O.written page.old.writer) (O.written page.new.writer) }
{
    match value.rate {
        Rate::Varying => put_lanes(digits, value.value_type, &value.lanes, page),
        Rate::Uniform => put_one(digits, value.value_type, &value.lanes, page),
    }
}

/// Writes a blank and the word of each lane, or `.` where it waits.
fn put_lanes<O: AnswerWriter + Drop>(
    digits: Digits,
    value_type: IntType,
    lanes: &LaneWords,
    page: &mut Page<O>,
)
    ensures { IsGangWidth lanes.now.width
        → Puts (spec.lanes_text digits value_type (lanes_of lanes.now.width lanes.now.lanes) lanes.now.words lanes.now.width)
        page.old.has_failed page.new.has_failed (O.written page.old.writer) (O.written page.new.writer) }
{
    for lane in 0..lanes.width.min(WIDEST) {
        put_lane(digits, value_type, lanes, lane, page);
    }
}

/// Writes a blank and the word of a lane, or `.` where it waits.
fn put_lane<O: AnswerWriter + Drop>(
    digits: Digits,
    value_type: IntType,
    lanes: &LaneWords,
    lane: usize,
    page: &mut Page<O>,
)
    requires { lane < 16 }
    ensures { IsGangWidth lanes.now.width → lane < lanes.now.width
        → Puts (spec.lane_text digits value_type (lanes_of lanes.now.width lanes.now.lanes) lanes.now.words lane)
        page.old.has_failed page.new.has_failed (O.written page.old.writer) (O.written page.new.writer) }
{
    if lanes.lanes.has::<WIDEST>(lane) {
        put_word(digits, value_type, lanes.words[lane], page);
    } else {
        page.put(b" .");
    }
}

/// Writes a blank and the word of the lowest active lane, or `.` where each waits.
fn put_one<O: AnswerWriter + Drop>(
    digits: Digits,
    value_type: IntType,
    lanes: &LaneWords,
    page: &mut Page<O>,
)
    ensures { IsGangWidth lanes.now.width
        → Puts (spec.one_text digits value_type (lanes_of lanes.now.width lanes.now.lanes) lanes.now.words)
        page.old.has_failed page.new.has_failed (O.written page.old.writer) (O.written page.new.writer) }
{
    for lane in 0..lanes.width.min(WIDEST) {
        if lanes.lanes.has::<WIDEST>(lane) {
            put_lane(digits, value_type, lanes, lane, page);
            return;
        }
    }
    page.put(b" .");
}

/// Writes why a text has no value.
pub fn tell_no_value<O: AnswerWriter + Drop>(
    why: &NoValue,
    spelled: Spelled<'_>,
    page: &mut Page<O>,
) {
    match why {
        NoValue::NoFrame => page.put(
            b"C4 Ended: the program has ended, so there is no frame with values; `reverse-step` or `reverse-continue` goes back into it.\n",
        ),
        NoValue::Fault(fault) => put_fault(*fault, page),
        NoValue::Refused(refusal) => tell_refusal(refusal, spelled, page),
    }
}

/// Writes the fault of a value, and its lane.
fn put_fault<O: AnswerWriter + Drop>(fault: Fault, page: &mut Page<O>) {
    put_faulty_lane(fault, page);
    page.put(b"; the expression has no value.\n");
}

/// Writes a fault, and its lane.
fn put_faulty_lane<O: AnswerWriter + Drop>(fault: Fault, page: &mut Page<O>) {
    page.put(fault_text(fault.name));
    page.put(b" in lane ");
    page.put_number(fault.lane as i128);
}

/// Writes a line: an expression as it is typed, and the fault that its value has.
pub fn show_faulty<O: AnswerWriter + Drop>(typed: &[u8], fault: Fault, page: &mut Page<O>) {
    page.put_masked(typed);
    page.put(b" has no value: ");
    put_faulty_lane(fault, page);
    page.put(b"\n");
}

/// Writes why a text has no meaning, with a mark under the place.
fn tell_refusal<O: AnswerWriter + Drop>(
    refusal: &ExpressionRefusal,
    spelled: Spelled<'_>,
    page: &mut Page<O>,
) {
    match refusal {
        ExpressionRefusal::Memory => {
            page.put(b"C12 Memory: there is no memory for this expression.\n");
        }
        ExpressionRefusal::NoTokens(refusal) | ExpressionRefusal::NoExpression(refusal) => {
            tell_unread(*refusal, spelled, page);
        }
        ExpressionRefusal::NoValue(refusal) => {
            put_refusal(
                name_of(refusal.number),
                refusal.place,
                why_in(refusal.number, spelled.text),
                spelled,
                page,
            );
        }
        ExpressionRefusal::CallsFunction(place) => {
            put_refusal(
                name_of(RefusalNumber::S9),
                *place,
                b"a function of the program is not called from the prompt: `break NAME` stops in it.\n",
                spelled,
                page,
            );
        }
    }
}

/// Writes why a text is no expression: what is said of a mark that GDB would understand, or the refusal.
fn tell_unread<O: AnswerWriter + Drop>(
    refusal: SourceRefusal,
    spelled: Spelled<'_>,
    page: &mut Page<O>,
) {
    if let Some(why) = why_no_value(spelled.text) {
        page.put(why);
        page.put(b"\n");
    } else {
        put_refusal(
            name_of(refusal.number),
            refusal.place,
            why_of(refusal.number),
            spelled,
            page,
        );
    }
}

/// Writes a refusal with its column in the line, why it is one, and the line with a mark.
fn put_refusal<O: AnswerWriter + Drop>(
    name: &[u8],
    place: Place,
    why: &[u8],
    spelled: Spelled<'_>,
    page: &mut Page<O>,
) {
    let at = offset(place, spelled);
    page.put(name);
    page.put(b", column ");
    page.put_number(at as i128 + 1);
    page.put(b": ");
    page.put(why);
    put_typed(spelled.line, at, page);
}

/// How many bytes of the line come before a place of the text.
fn offset(place: Place, spelled: Spelled<'_>) -> usize {
    spelled
        .line
        .len()
        .saturating_sub(spelled.text.len())
        .saturating_add((place.col as usize).saturating_sub(1))
}

/// A refusal's number and name.
fn name_of(number: RefusalNumber) -> &'static [u8] {
    match number {
        RefusalNumber::S1 => b"S1 BadByte",
        RefusalNumber::S2 => b"S2 BadNumber",
        RefusalNumber::S3 => b"S3 Unexpected",
        RefusalNumber::S4 => b"S4 TooDeep",
        RefusalNumber::S5 => b"S5 UnknownName",
        RefusalNumber::S6 => b"S6 Duplicate",
        RefusalNumber::S7 => b"S7 Rate",
        RefusalNumber::S8 => b"S8 Type",
        RefusalNumber::S9 => b"S9 NoOverload",
        RefusalNumber::S10 => b"S10 Ambiguous",
        RefusalNumber::S11 => b"S11 BadControl",
        RefusalNumber::S12 => b"S12 NestedCall",
        RefusalNumber::S13 => b"S13 Limit",
    }
}

/// What a refusal says of a text.
fn why_in(number: RefusalNumber, text: &[u8]) -> &'static [u8] {
    match number {
        RefusalNumber::S8 if text.iter().any(|byte| *byte == b'[') => NO_LANE,
        _ => why_of(number),
    }
}

/// What a refusal says of an expression.
fn why_of(number: RefusalNumber) -> &'static [u8] {
    match number {
        RefusalNumber::S1 => b"nothing in an expression begins with this byte.\n",
        RefusalNumber::S2 => b"this is no number, or too large a one.\n",
        RefusalNumber::S3 => b"an expression does not go on so.\n",
        RefusalNumber::S4 => b"an expression has at most 64 nestings.\n",
        RefusalNumber::S5 =>
            b"no variable of this name is in scope in this frame or of the file.\n",
        RefusalNumber::S7 => b"a varying value stands where a uniform one is wanted.\n",
        RefusalNumber::S8 =>
            b"the type does not fit: an array has no value without an index, and a bool is no number.\n",
        RefusalNumber::S9 =>
            b"no function of the library with this name takes these values and gives one; `whatis T` tells a type.\n",
        _ => b"the expression is too long.\n",
    }
}
